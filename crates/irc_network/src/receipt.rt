//! What a client receives.
use crate::client_number::ClientNumber;
use irc_line::Text;

/// A line that a client has received.
#[derive(Drop)]
pub struct Receipt {
    /// The client.
    pub client: ClientNumber,
    /// The line, with its CR LF (RFC 2812 section 2.3).
    pub text: Text,
}
