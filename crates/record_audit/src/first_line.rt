//! The first line of a text.

ghost use Rattle.std.specs.Prelude.{MatchOption};
ghost use Rattle.record_audit.specs.inside.{HasNoEnd, IsParted};

use memchr::memchr;

/// What stands before the first end of a line, and what stands behind that; None if no line ends.
pub(crate) fn first_line(octets: &[u8]) -> Option<(&[u8], &[u8])>
    ensures { MatchOption result (HasNoEnd octets.now)
        (λ parts. IsParted octets.now parts.0.now parts.1.now) }
{
    let place = memchr(b'\n', octets)?;
    Some((&octets[..place], &octets[place + 1..]))
}
