//! The parameters of a line of a link, taken one by one.
ghost use Rattle.std.specs.Prelude.{◌≡◌, [], IfOk};
ghost use Rattle.irc_line.specs.PartViews.{words_now};
ghost use Rattle.irc_link_words.specs.Params.{IsNext, end_of};

use irc_batch::CloseReason;
use std::marker::Model;

/// The parameters of a line that are left. In a clause it is the list of these words.
///
/// Each line is read from left to right: `next` for each word that it has, then `end`.
#[derive(Drop)]
pub struct Params<'a> {
    /// All parameters of the line.
    words: &'a [&'a [u8]],
    /// How many of them are taken.
    used: usize,
}

impl<'a> Model for Params<'a> {
    ghost use Rattle.std.specs.Prelude.{ℕ, List, ◌≤◌, drop, length};
    ghost use Rattle.irc_line.specs.PartViews.{words_now};

    ghost Value = { List (List ℕ) };

    ghost view = { λ params. words_now (drop params.used params.words.now) };

    ghost invariant = { λ params. params.used ≤ length params.words.now };
}

impl<'a> Params<'a> {
    /// The parameters of a line, of which none is taken.
    pub fn new(words: &'a [&'a [u8]]) -> Params<'a>
        ensures { result ≡ words_now words.now }
    {
        Params { words, used: 0 }
    }

    /// Takes the next parameter.
    ///
    /// # Errors
    /// [`CloseReason::Parameters`] where none is left.
    pub fn next(&mut self) -> Result<&'a [u8], CloseReason>
        ensures { IsNext self.old result self.new }
    {
        if self.used == self.words.len() {
            return Err(CloseReason::Parameters);
        }
        let word = self.words[self.used];
        self.used += 1;
        Ok(word)
    }

    /// Ends the line.
    ///
    /// # Errors
    /// [`CloseReason::Parameters`] where a parameter is left.
    pub fn end(self) -> Result<(), CloseReason>
        ensures done { IfOk result (λ _. self.entry ≡ []) }
        ensures left { result ≡ end_of self.entry }
    {
        match self.words[self.used..].split_first() {
            Some(_) => Err(CloseReason::Parameters),
            None => Ok(()),
        }
    }

    /// Those that are left, all at once.
    pub fn rest(self) -> &'a [&'a [u8]]
        ensures { words_now result.now ≡ self.entry }
    {
        &self.words[self.used..]
    }
}
