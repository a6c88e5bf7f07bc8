//! Why a text gives no settings.

ghost use Rattle.std.specs.Prelude.{◌≡◌};
ghost use Rattle.std.specs.Fmt.{is_char_start};
ghost use Rattle.toml.specs.Errors.{IsMemory};
ghost use Rattle.settings.specs.Faults.{fault_number, Tells};
ghost use Rattle.settings.specs.Places.{IsPlaced, column_behind, line_behind};

use crate::setting_key::SettingKey;
use std::alloc::{AllocError, AllocFailed};
use std::fmt;
use thiserror::Error;

/// Why a text gives no settings. Of the first five, the first that applies is answered: the keys
/// are tested in order, those of `[zone]`, then of `[serve]`, then of each `[[pool]]`.
/// It is shown as its number, its name, and the key if there is one.
#[derive(Clone, Copy, Debug, PartialEq, Eq, Error)]
pub enum SettingsFault {
    /// The text is no TOML document.
    #[error("1 Syntax")]
    Syntax(SyntaxError),
    /// This key is required, and isn't there.
    #[error("2 Missing {0}")]
    Missing(&'static str),
    /// What stands under this key is of another kind, as a text in place of a number.
    #[error("3 WrongKind {0}")]
    WrongKind(&'static str),
    /// What stands under this key is outside its range.
    #[error("4 OutOfRange {0}")]
    OutOfRange(&'static str),
    /// There is no pool, or the last one has a network, so that some calls have no pool.
    #[error("5 NoDefaultPool")]
    NoDefaultPool,
    /// Memory is refused.
    #[error("6 Memory")]
    Memory,
}

impl SettingsFault {
    /// The number of the fault.
    pub fn number(&self) -> u8
        ensures { result ≡ fault_number self.now }
    {
        match self {
            SettingsFault::Syntax(_) => 1,
            SettingsFault::Missing(_) => 2,
            SettingsFault::WrongKind(_) => 3,
            SettingsFault::OutOfRange(_) => 4,
            SettingsFault::NoDefaultPool => 5,
            SettingsFault::Memory => 6,
        }
    }
}

/// Where and why a text is no TOML document. It is shown as the line, the column and the reason.
#[derive(Clone, Copy, Debug, PartialEq, Eq)]
pub struct SyntaxError {
    /// The line at which the text is refused, from 1.
    pub line: usize,
    /// The character in that line at which the text is refused, from 1.
    pub column: usize,
    error: toml::de::Error,
}

impl SyntaxError {
    /// Where the text is refused, and why.
    pub(crate) fn new(text: &str, error: toml::de::Error) -> SyntaxError
        ensures { ¬ IsMemory error → IsPlaced text.now result }
    {
        let start = match error.span() {
            Some(span) => span.start,
            None => 0,
        };
        let before = &text.as_bytes()[..start.min(text.len())];
        let (line, column) = place_behind(before);
        SyntaxError {
            line,
            column,
            error,
        }
    }

    /// Why the text is refused there.
    pub fn message(&self) -> &str {
        self.error.message()
    }
}

impl fmt::Display for SyntaxError {
    fn fmt<W: fmt::Write>(&self, f: &mut fmt::Formatter<W>) -> fmt::Result {
        let (line, column) = (self.line, self.column);
        write!(f, "line {line}, column {column}: ")?;
        f.write_str(self.message())
    }
}

/// The line and the character in it, both from 1, that come behind these octets.
fn place_behind(before: &[u8]) -> (usize, usize)
    ensures line { result.0 ≡ line_behind before.now }
    ensures column { result.1 ≡ column_behind before.now }
{
    let mut line = 1usize;
    let mut column = 1usize;
    for octet in before {
        if *octet == b'\n' {
            line += 1;
            column = 1;
        } else if begins_character(*octet) {
            column += 1;
        }
    }
    (line, column)
}

/// Whether an octet is the first one of a character, in UTF-8.
fn begins_character(octet: u8) -> bool
    ensures { result ≡ is_char_start octet }
{
    !(0x80..0xC0).contains(&octet)
}

/// Why a document gives no settings.
#[derive(Clone, Copy, Debug, PartialEq, Eq)]
pub(crate) enum Refusal {
    Missing(SettingKey),
    WrongKind(SettingKey),
    OutOfRange(SettingKey),
    NoDefaultPool,
    Memory,
}

impl From<AllocError> for Refusal {
    ghost use Rattle.std.specs.Prelude.{◌≡◌};
    ghost use Rattle.settings.specs.declared.fault.Refusal.TheVariants.{Memory};

    ghost from_gives = { λ _ refusal. refusal ≡ Memory };

    fn from(_: AllocError) -> Refusal {
        Refusal::Memory
    }
}

impl<T: Drop> From<AllocFailed<T>> for Refusal {
    ghost use Rattle.std.specs.Prelude.{◌≡◌};
    ghost use Rattle.settings.specs.declared.fault.Refusal.TheVariants.{Memory};

    ghost from_gives = { λ _ refusal. refusal ≡ Memory };

    fn from(_: AllocFailed<T>) -> Refusal {
        Refusal::Memory
    }
}

/// The fault that tells of a refusal.
pub(crate) fn fault_of(refusal: Refusal) -> SettingsFault
    ensures { Tells refusal result }
{
    match refusal {
        Refusal::Missing(key) => SettingsFault::Missing(key.path()),
        Refusal::WrongKind(key) => SettingsFault::WrongKind(key.path()),
        Refusal::OutOfRange(key) => SettingsFault::OutOfRange(key.path()),
        Refusal::NoDefaultPool => SettingsFault::NoDefaultPool,
        Refusal::Memory => SettingsFault::Memory,
    }
}
