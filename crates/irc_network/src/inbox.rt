//! What a client has received.
ghost use Rattle.std.specs.Prelude.{◌≡◌, ◌≤◌, [], ◌∷◌, ◌++◌, length, map, OnErr, OnOk};
ghost use Rattle.irc_line.specs.Limits.{max_text};
ghost use Rattle.irc_network.specs.Views.{line_bytes};

use irc_line::Text;
use irc_names::copied;
use std::alloc::{AllocError, Global};
use std::marker::Model;

/// All that a client has received, in order, each line with its CR LF.
#[derive(Drop)]
pub(crate) struct Inbox {
    texts: Vec<Text, Global>,
}

/// In a clause it is the bytes of its lines, the oldest first.
impl Model for Inbox {
    ghost use Rattle.std.specs.Prelude.{ℕ, List, map};
    ghost use Rattle.irc_network.specs.Views.{line_bytes};

    ghost Value = { List (List ℕ) };

    ghost view = { λ inbox. map line_bytes inbox.texts.items };
}

impl Inbox {
    /// That of a client that has received nothing.
    pub fn new(alloc: Global) -> Self
        ensures { result ≡ [] }
    {
        Inbox {
            texts: Vec::new(alloc),
        }
    }

    /// A line of at most 512 bytes is received.
    ///
    /// # Errors
    /// Where memory runs out: the inbox is as it was.
    pub fn push(&mut self, text: &[u8]) -> Result<(), AllocError>
        requires fits { length text.now ≤ max_text }
        ensures received { OnOk result (self.new ≡ self.old ++ text.now ∷ []) }
        ensures want { OnErr result (self.new ≡ self.old) }
    {
        match self.texts.push(copied(text)) {
            Ok(()) => Ok(()),
            Err(_) => Err(AllocError),
        }
    }

    /// The lines, the oldest first.
    pub fn as_slice(&self) -> &[Text]
        ensures { map line_bytes result.now ≡ self.now }
    {
        self.texts.as_slice()
    }
}
