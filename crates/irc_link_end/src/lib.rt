//! One end of a link: how it begins, whether its lines go in pieces and tell who is away, what of a
//! line that comes is for the server, and what stands in front of lines that go out.
#![tactic(auto)]

mod greeting;
mod link_end;
mod offer;

pub use greeting::WayOut;
pub use link_end::LinkEnd;
pub use offer::{Offer, offer_in, with_words, without_words};
