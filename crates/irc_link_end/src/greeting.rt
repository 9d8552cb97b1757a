//! The two lines with which a link begins, and the ways in which lines go out.
use crate::offer::Offer;

/// How much was put out of the two lines with which a link begins (RFC 2813 section 4.1).
#[derive(Clone, Copy, Debug, Drop, PartialEq, Eq)]
pub(crate) enum Greeting {
    /// Nothing.
    Nothing,
    /// PASS.
    Password,
    /// PASS and SERVER.
    Whole,
}

/// How a line of an end's own server goes out.
#[derive(Clone, Copy, Debug, Drop, PartialEq, Eq)]
pub enum WayOut {
    /// As it is.
    Plain,
    /// It is the PASS of an end that offers this: with the words.
    WithWords(Offer),
    /// As part of a piece.
    InPiece,
}
