//! What is printed of outcomes that no line shows.

use facts::ensure;
use pools::Lend;
use ras_core::{Datagram, DueItem, Note, Outcome};
use ras_module::{Address, EndpointId, Name, Octets};
use script::write_outcome;
use std::alloc::{AllocError, Global};
use std::test::Fail;

/// What is printed of an outcome that is the first of its run.
fn line_of(alloc: Global, outcome: Outcome) -> Result<Vec<u8>, Fail> {
    let mut out = Vec::new(alloc);
    write_outcome(1, &outcome, &mut out)?;
    Ok(out)
}

/// The line of an endpoint with this identifier, whose silence has ended.
fn line_of_silent(alloc: Global, characters: &[u16]) -> Result<Vec<u8>, Fail> {
    let name = Name::new(characters).ok_or("an identifier has 1 to 128 characters")?;
    let silent = DueItem::Silent(EndpointId::new(name));
    line_of(alloc, Outcome::noted(Note::Done(silent), None))
}

#[test]
fn an_identifier_is_written_in_utf_8(rt: HostRuntime) -> Result<(), Fail> {
    let characters = [0x41, 0xE9, 0x20AC, 0xD800, 0xDFFF, 0xE000];
    let line = line_of_silent(rt.alloc(), &characters)?;
    let text = b"1 done silent A\xC3\xA9\xE2\x82\xAC\xEF\xBF\xBD\xEF\xBF\xBD\xEE\x80\x80\n";
    ensure(
        line.as_slice() == text.as_slice(),
        "halves of pairs are replaced",
    )
}

/// The outcome of a call that was served, with this reply.
fn served(bytes: Vec<u8>) -> Outcome {
    let to = Address {
        ip: [192, 168, 100, 200],
        port: 65_535,
    };
    Outcome {
        answer: Some(Lend::Lent(640)),
        output: Some(Datagram {
            to,
            bytes: Octets::from_vec(bytes),
        }),
        note: Note::Served,
        dropped: Some(12),
        given: None,
    }
}

/// The line of a call that was served, whose reply has this count of octets, each 171.
fn line_of_octets(alloc: Global, count: usize) -> Result<Vec<u8>, Fail> {
    let bytes = vec![in alloc; 0xABu8; count]?;
    line_of(alloc, served(bytes))
}

/// What that line is to be.
fn expected_line(alloc: Global, count: usize) -> Result<Vec<u8>, AllocError> {
    let mut line = Vec::new(alloc);
    line.extend_from_slice(b"1 served lent 640 dropped 12 > 192.168.100.200:65535 ")?;
    for _ in 0..count {
        line.extend_from_slice(b"AB")?;
    }
    line.extend_from_slice(b"\n")?;
    Ok(line)
}

/// Whether that line is printed.
fn is_line_printed(alloc: Global, count: usize) -> Result<bool, Fail> {
    let line = line_of_octets(alloc, count)?;
    let expected = expected_line(alloc, count)?;
    Ok(line.as_slice() == expected.as_slice())
}

#[test]
fn short_and_long_replies_are_printed_alike(rt: HostRuntime) -> Result<(), Fail> {
    for count in [0, 1, 63, 64, 65, 128, 129, 1000] {
        let is_printed = is_line_printed(rt.alloc(), count)?;
        assert!(rt; is_printed, "{count}");
    }
    Ok(())
}
