//! Reading settings from an input.

ghost use Rattle.std.specs.Prelude.{◌≡◌, ◌≤◌, length, map, IfErr, IfOk, IfSome, Some};
ghost use Rattle.std.specs.Fmt.{DisplaysOnOk};
ghost use Rattle.settings.specs.Settings.{AreSettings};
ghost use Rattle.commands.specs.Inputs.{ArePassedOver, HaveLines, IsInputRead, IsReadFault};
ghost use Rattle.commands.specs.Inputs.{IsRefusal, IsTextRead, count_with, input_status};
ghost use Rattle.commands.specs.PassedKeys.{hint_of, passed_over_text, place_text};

use crate::key_lines::{line_behind, line_of};
use settings::{Settings, SettingsFault, UnknownKey, read_settings, unknown_keys};
use std::alloc::{AllocError, Global};
use std::fmt;
use std::io::{ErrorKind, Read};
use thiserror::Error;

/// The octets that settings have at most.
const MOST_READ: usize = 1_048_576;

/// Why an input gives no settings.
#[derive(Clone, Copy, Debug, PartialEq, Eq, Error)]
pub enum InputFault {
    /// A read of it failed.
    #[error("stream failed")]
    Stream,
    /// It has more octets than are read.
    #[error("input too long")]
    TooLong,
    /// It isn't UTF-8, from this line on.
    #[error("settings: 1 Syntax")]
    NotText(usize),
    /// It gives no settings.
    #[error("settings: {0}")]
    Refused(SettingsFault),
    /// Memory is refused.
    #[error("out of memory")]
    Memory,
}

impl InputFault {
    /// The exit status: 1 if the settings are refused, 3 if there is no memory, and 4 if a read
    /// failed.
    pub fn status(&self) -> u8
        ensures { result ≡ input_status self.now }
    {
        match self {
            InputFault::TooLong | InputFault::NotText(_) | InputFault::Refused(_) => 1,
            InputFault::Memory => 3,
            InputFault::Stream => 4,
        }
    }
}

/// A key that is passed over, since it isn't known. It is shown behind the line on which it stands,
/// with the known key that may be meant.
///
/// promise passed-over-keys-are-told: What is shown of a key that is passed over is its line, its
/// path, and the nearest known key, each if there is one (`passed_over_text`).
#[derive(Drop)]
pub struct PassedOver {
    key: UnknownKey,
    line: Option<usize>,
}

impl fmt::Display for PassedOver {
    ghost output = { λ passed. Some (passed_over_text passed) };

    fn fmt<W: fmt::Write>(&self, f: &mut fmt::Formatter<W>) -> fmt::Result {
        write_place(self.line, f)?;
        write!(f, "unknown key {}", self.key.path)?;
        write_hint(&self.key, f)
    }
}

/// Writes where a key stands, if its line is known.
fn write_place<W: fmt::Write>(line: Option<usize>, f: &mut fmt::Formatter<W>) -> fmt::Result
    ensures { DisplaysOnOk W.write_str_gives f.old result (Some (place_text line)) f.new }
{
    match line {
        Some(line) => write!(f, "line {line}: "),
        None => Ok(()),
    }
}

/// Writes which known key may be meant, if one is near.
fn write_hint<W: fmt::Write>(key: &UnknownKey, f: &mut fmt::Formatter<W>) -> fmt::Result
    ensures { DisplaysOnOk W.write_str_gives f.old result (Some (hint_of key.now)) f.new }
{
    match key.nearest {
        Some(nearest) => write!(f, ", nearest {nearest}"),
        None => Ok(()),
    }
}

/// Settings that were read, and the keys that were passed over.
#[derive(Drop)]
pub struct ReadInput {
    pub settings: Settings,
    pub passed_over: Vec<PassedOver>,
}

/// The octets of an input, to its end. At most one octet past the greatest size is read.
pub(crate) fn read_octets<R: Read + Drop>(alloc: Global, input: R) -> Result<Vec<u8>, InputFault>
    ensures ok { IfSome (R.remaining input) (λ octets. IfOk result (λ read.
        (read.items ≡ octets) × (length octets ≤ MOST_READ))) }
    ensures err { IfSome (R.remaining input) (λ octets. IfErr result (IsReadFault octets)) }
{
    let mut front = input.take(MOST_READ as u64 + 1);
    let mut octets = Vec::new(alloc);
    match front.read_to_end(&mut octets) {
        Ok(_) if octets.len() > MOST_READ => Err(InputFault::TooLong),
        Ok(_) => Ok(octets),
        Err(error) if error.kind() == ErrorKind::OutOfMemory => Err(InputFault::Memory),
        Err(_) => Err(InputFault::Stream),
    }
}

/// The fault of a text that gives no settings.
fn refusal(fault: SettingsFault) -> InputFault
    ensures { IsRefusal fault result }
{
    if matches!(fault, SettingsFault::Memory) {
        return InputFault::Memory;
    }
    InputFault::Refused(fault)
}

/// How many of these keys have this path.
fn count_of(keys: &[PassedOver], path: &str) -> usize
    ensures { result ≡ count_with path.now keys.now }
{
    keys.iter()
        .filter(|passed| passed.key.path.as_str() == path)
        .count()
}

/// The keys that are passed over, each with the line on which it stands.
fn passed_over(
    alloc: Global,
    text: &str,
    unknown: Vec<UnknownKey>,
) -> Result<Vec<PassedOver>, AllocError>
    ensures keys { IfOk result (λ all. map (λ passed. passed.key) all.items ≡ unknown.items) }
    ensures lines { IfOk result (λ all. HaveLines text.now all.items) }
{
    let mut all = Vec::with_capacity(alloc, unknown.len())?;
    for key in unknown {
        let path = key.path.as_str();
        let line = line_of(text, path, count_of(&all, path));
        all.push(PassedOver { key, line })
            .map_err(AllocError::from)?;
    }
    Ok(all)
}

/// The settings of a text.
fn read_text(alloc: Global, text: &str) -> Result<ReadInput, InputFault>
    ensures answer { IsTextRead text.now result }
    ensures passed { IfOk result (λ read. ArePassedOver text.now read.passed_over.items) }
    ensures lines { IfOk result (λ read. HaveLines text.now read.passed_over.items) }
    ensures ranges { IfOk result (λ read. AreSettings read.settings) }
{
    let settings = match read_settings(alloc, text) {
        Ok(settings) => settings,
        Err(fault) => return Err(refusal(fault)),
    };
    // A text that gives settings is a document, so that memory alone can be refused here.
    let Ok(unknown) = unknown_keys(alloc, text) else {
        return Err(InputFault::Memory);
    };
    match passed_over(alloc, text, unknown) {
        Ok(passed_over) => Ok(ReadInput {
            settings,
            passed_over,
        }),
        Err(AllocError) => Err(InputFault::Memory),
    }
}

/// Reads settings from an input, which is read whole.
///
/// promise settings-input-is-bounded: Octets are settings if and only if they are UTF-8, at most
/// 1,048,576, and `read_settings` takes them; told are the keys that are passed over, each with its
/// line, and the line where UTF-8 ends.
pub fn read_input<R: Read + Drop>(alloc: Global, input: R) -> Result<ReadInput, InputFault>
    ensures answer { IfSome (R.remaining input) (λ octets. IsInputRead octets result) }
    ensures passed { IfSome (R.remaining input) (λ octets.
        IfOk result (λ read. ArePassedOver octets read.passed_over.items)) }
    ensures lines { IfSome (R.remaining input) (λ octets.
        IfOk result (λ read. HaveLines octets read.passed_over.items)) }
    ensures ranges { IfOk result (λ read. AreSettings read.settings) }
{
    match read_octets(alloc, input) {
        Ok(octets) => match str::from_utf8(&octets) {
            Ok(text) => read_text(alloc, text),
            Err(error) => {
                let before = &octets[..error.valid_up_to()];
                Err(InputFault::NotText(line_behind(before)))
            }
        },
        Err(fault) => Err(fault),
    }
}
