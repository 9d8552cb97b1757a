//! One thing that is told of a link, and its line.
ghost use Rattle.std.specs.Prelude.{◌≡◌, ◌≤◌, length};
ghost use Rattle.std.specs.Option.{option_copied};
ghost use Rattle.irc_journal.specs.Lines.{far_text, head_text, host_text, more_text, outcome_text};
ghost use Rattle.irc_journal.specs.Lines.{shown_host, side_text, AreWords, IsLineOf};

use arrayvec::ArrayVec;
use irc_batch::CloseReason;
use irc_names::{Host, ServerName};
use itoa::Buffer;
use std::io::{Error, Write};

/// How many bytes the words of a reason may have; what is longer is cut.
const WORDS: usize = 128;

/// The words of a reason.
pub type ReasonWords = ArrayVec<u8, WORDS>;

/// How many bytes an address may have, with the words before it.
const PLACE: usize = 67;

/// The words that tell an address.
type PlaceWords = ArrayVec<u8, PLACE>;

/// How many bytes the count of lines that were left out may have, with the words around it.
const COUNT: usize = 28;

/// The words that tell that count.
type CountWords = ArrayVec<u8, COUNT>;

/// How many bytes may stand in front of what has come of a link.
const HEAD: usize = 148;

/// The front of a line: by whose call the link was made, and who is at the other end.
type HeadWords = ArrayVec<u8, HEAD>;

/// How many bytes a line may have: those of the parts around the words come to 198 at most.
const LINE: usize = 384;

/// A line, with its line feed.
pub type JournalLine = ArrayVec<u8, LINE>;

/// What has come of a link, or of a call.
#[derive(Clone, Copy, Drop)]
pub enum Outcome {
    /// The server at the other end is known from now on.
    Up,
    /// This side closes it, and it was not up.
    Refused(CloseReason),
    /// This side closes it, and it was up.
    Closed(CloseReason),
    /// It is lost, and was not up.
    LostEarly,
    /// It is lost, and was up.
    Lost,
    /// The call has reached nobody; the system says why.
    Unreached(Error),
}

/// What has come of a link, or of a call, and which it is.
#[derive(Drop)]
pub struct Tidings {
    /// The number of the link; none, where a call has reached nobody.
    pub link: Option<u64>,
    /// The server at the other end, where its name is known or was claimed.
    pub name: Option<ServerName>,
    /// Whether this side called.
    pub is_called: bool,
    /// What has come of it.
    pub outcome: Outcome,
}

/// The words that tell an address, if one is shown.
fn place_words(host: Option<&Host>) -> PlaceWords
    ensures { result.items ≡ host_text (option_copied host.entry) }
{
    let mut words = PlaceWords::new();
    if let Some(host) = host {
        let _ = words.try_extend_from_slice(b" at ");
        let _ = words.try_extend_from_slice(host.as_bytes());
    }
    words
}

/// The words that tell how many lines were left out, if any were.
fn count_words(more: u64) -> CountWords
    ensures { result.items ≡ more_text more }
{
    let mut words = CountWords::new();
    if more != 0 {
        let mut digits = Buffer::new();
        let _ = words.try_extend_from_slice(b" (");
        let _ = words.try_extend_from_slice(digits.format(more).as_bytes());
        let _ = words.try_extend_from_slice(b" more)");
    }
    words
}

impl Outcome {
    /// What is said of it, but for the words of its reason.
    fn text(&self) -> &'static [u8]
        ensures text { result.now ≡ outcome_text self.now }
        ensures fits { length result.now ≤ 21 }
    {
        match self {
            Outcome::Up => b"up",
            Outcome::Refused(_) => b"refused: ",
            Outcome::Closed(_) => b"closed: ",
            Outcome::LostEarly => b"lost before it was up",
            Outcome::Lost => b"lost",
            Outcome::Unreached(_) => b"not reached: ",
        }
    }

    /// The address that is shown with it, if it is known: that of who was not known.
    pub(crate) fn shown<'a>(&self, host: Option<&'a Host>) -> Option<&'a Host>
        ensures { option_copied result ≡ shown_host self.now (option_copied host.entry) }
    {
        match self {
            Outcome::Refused(_) | Outcome::LostEarly => host,
            Outcome::Up | Outcome::Closed(_) | Outcome::Lost | Outcome::Unreached(_) => None,
        }
    }

    /// The words of its reason, as the reason itself has them.
    fn words(&self) -> ReasonWords
        ensures { AreWords self.now result.items }
    {
        let mut words = ReasonWords::new();
        match self {
            Outcome::Refused(reason) | Outcome::Closed(reason) => {
                let _cut = write!(words, "{reason}");
            }
            Outcome::Unreached(error) => {
                let _cut = write!(words, "{error}");
            }
            Outcome::Up | Outcome::LostEarly | Outcome::Lost => {}
        }
        words
    }
}

impl Tidings {
    /// The line that tells it, with an address if one is shown, and how many lines were left out
    /// before it.
    pub fn line(&self, host: Option<&Host>, more: u64) -> JournalLine
        ensures { IsLineOf self.now (option_copied host.entry) more result.items }
    {
        let words = self.outcome.words();
        let mut line = JournalLine::new();
        let _ = line.try_extend_from_slice(self.head(host).as_slice());
        let _ = line.try_extend_from_slice(self.outcome.text());
        let _ = line.try_extend_from_slice(words.as_slice());
        let _ = line.try_extend_from_slice(count_words(more).as_slice());
        let _ = line.try_extend_from_slice(b"\n");
        line
    }

    /// The front of that line.
    fn head(&self, host: Option<&Host>) -> HeadWords
        ensures { result.items ≡ head_text self.now (option_copied host.entry) }
    {
        let mut head = HeadWords::new();
        let _ = head.try_extend_from_slice(self.side());
        let _ = head.try_extend_from_slice(self.far());
        let _ = head.try_extend_from_slice(place_words(host).as_slice());
        let _ = head.try_extend_from_slice(b": ");
        head
    }

    /// What the line begins with: by whose call the link was made.
    fn side(&self) -> &'static [u8]
        ensures text { result.now ≡ side_text self.now.is_called }
        ensures fits { length result.now ≤ 16 }
    {
        if self.is_called {
            b"ircd: link to "
        } else {
            b"ircd: link from "
        }
    }

    /// Who is at the other end.
    fn far(&self) -> &[u8]
        ensures text { result.now ≡ far_text self.now.name }
        ensures fits { length result.now ≤ 63 }
    {
        match &self.name {
            Some(name) => name.as_bytes(),
            None => b"an unknown server",
        }
    }
}
