//! The kinds of pools.

ghost use Rattle.std.specs.Prelude.{◌≡◌};
ghost use Rattle.value_texts.specs.Texts.{kind_of};

use crate::parts::is_word;

/// A kind of pool.
#[derive(Clone, Copy, Debug, PartialEq, Eq)]
pub enum PoolKind {
    /// It lends what is asked for, up to its limit.
    Fixed,
    /// It lends whole steps.
    Step,
    /// It lends no more than its burst between two turns.
    Paced,
}

impl PoolKind {
    /// The kind of this name: `fixed`, `step` or `paced`.
    pub fn named(word: &[u8]) -> Option<PoolKind>
        ensures { result ≡ kind_of word.now }
    {
        if is_word(word, "fixed") {
            Some(PoolKind::Fixed)
        } else if is_word(word, "step") {
            Some(PoolKind::Step)
        } else if is_word(word, "paced") {
            Some(PoolKind::Paced)
        } else {
            None
        }
    }
}
