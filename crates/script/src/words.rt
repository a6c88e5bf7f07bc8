//! The words of a line.

ghost use Rattle.std.specs.Prelude.{◌≡◌, ◌∷◌, [], MatchOption, drop, if◌then◌else◌};
ghost use Rattle.script.specs.Words.{begins_with, words_of};

use crate::long_parts::long_parted;
use std::marker::Model;
use value_texts::{is_word, parted};

/// The words of a line that are left. Contracts see the list of them.
#[derive(Drop)]
pub struct Words<'a> {
    rest: &'a [u8],
}

impl<'a> Model for Words<'a> {
    ghost use Rattle.std.specs.Prelude.{ℕ, List};
    ghost use Rattle.script.specs.Words.{words_of};

    ghost Value = { List (List ℕ) };

    ghost view = { λ w. words_of w.rest.now };
}

impl<'a> Words<'a> {
    /// The words of a line.
    pub fn new(line: &'a [u8]) -> Words<'a>
        ensures { result ≡ words_of line.now }
    {
        Words { rest: line }
    }

    /// The next word, which is then no longer left. It is looked for octet by octet, which serves
    /// short words.
    pub fn next_word(&mut self) -> Option<&'a [u8]>
        ensures { MatchOption result (self.old ≡ []) (λ word. self.old ≡ word.now ∷ self.new) }
    {
        while !self.rest.is_empty() {
            let (word, rest) = parted(self.rest, b' ');
            self.rest = rest;
            if !word.is_empty() {
                return Some(word);
            }
        }
        None
    }

    /// The next word, as `next_word`. It is looked for many octets at a time, which serves long
    /// words.
    pub fn next_long_word(&mut self) -> Option<&'a [u8]>
        ensures { MatchOption result (self.old ≡ []) (λ word. self.old ≡ word.now ∷ self.new) }
    {
        while !self.rest.is_empty() {
            let (word, rest) = long_parted(self.rest, b' ');
            self.rest = rest;
            if !word.is_empty() {
                return Some(word);
            }
        }
        None
    }

    /// Passes over the next word if it is this one, and says whether it is.
    pub fn passes(&mut self, word: &str) -> bool
        ensures next { result ≡ begins_with word.now self.old }
        ensures rest { self.new ≡ if result then drop 1 self.old else self.old }
    {
        let before = self.rest;
        match self.next_word() {
            Some(next) if is_word(next, word) => true,
            _ => {
                self.rest = before;
                false
            }
        }
    }
}
