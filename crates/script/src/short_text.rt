//! Short texts, which are made without a request for memory.

ghost use Rattle.std.specs.Prelude.{◌≡◌, ◌+◌, ◌*◌, ◌∷◌, ◌++◌, ◌≤◌, [], length};
ghost use Rattle.std.specs.Fmt.{decimal};
ghost use Rattle.hex.specs.Hex.{encode_upper};
ghost use Rattle.script.specs.Prints.{address_text};

use crate::hex_digits::put_digits;
use itoa::write_digits;
use ras_module::Address;
use std::marker::Model;

/// The octets that a text has at most.
const MOST: usize = 352;

/// A text of at most 352 octets, which is made from its end to its front, as the digits of a number
/// come. Contracts see its octets.
#[derive(Drop)]
pub(crate) struct ShortText {
    octets: [u8; MOST],
    start: usize,
}

impl Model for ShortText {
    ghost use Rattle.std.specs.Prelude.{ℕ, List, ◌≤◌, drop};

    ghost Value = { List ℕ };

    ghost view = { λ t. drop t.start t.octets };

    ghost invariant = { λ t. t.start ≤ 352 };
}

impl ShortText {
    /// A text without an octet.
    #[inline(always)]
    pub(crate) fn new() -> ShortText
        ensures { result ≡ [] }
    {
        ShortText {
            octets: [0; MOST],
            start: MOST,
        }
    }

    /// Puts an octet before the text.
    #[inline(always)]
    pub(crate) fn put_mark(&mut self, mark: u8)
        requires { length self.old + 1 ≤ 352 }
        ensures text { self.new ≡ mark ∷ self.old }
        ensures len { length self.new ≡ length self.old + 1 }
    {
        self.start -= 1;
        self.octets[self.start] = mark;
    }

    /// Puts octets before the text.
    #[inline(always)]
    pub(crate) fn put(&mut self, octets: &[u8])
        requires { length octets.now + length self.old ≤ 352 }
        ensures text { self.new ≡ octets.now ++ self.old }
        ensures len { length self.new ≡ length octets.now + length self.old }
    {
        let start = self.start - octets.len();
        self.octets[start..self.start].copy_from_slice(octets);
        self.start = start;
    }

    /// Puts the digits of octets before the text.
    pub(crate) fn put_digits(&mut self, octets: &[u8])
        requires { 2 * length octets.now + length self.old ≤ 352 }
        ensures text { self.new ≡ encode_upper octets.now ++ self.old }
        ensures len { length self.new ≡ 2 * length octets.now + length self.old }
    {
        let start = self.start - 2 * octets.len();
        put_digits(octets, &mut self.octets[start..self.start]);
        self.start = start;
    }

    /// Puts a number before the text.
    #[inline(always)]
    pub(crate) fn put_number(&mut self, number: u64)
        requires { length self.old + 20 ≤ 352 }
        ensures text { self.new ≡ decimal number ++ self.old }
        ensures len { length self.new ≤ length self.old + 20 }
    {
        self.start = write_digits(number, &mut self.octets, self.start);
    }

    /// Puts `A.B.C.D:PORT` before the text.
    #[inline(always)]
    pub(crate) fn put_address(&mut self, address: &Address)
        requires { length self.old + 104 ≤ 352 }
        ensures text { self.new ≡ address_text address.now ++ self.old }
        ensures len { length self.new ≤ length self.old + 104 }
    {
        let [a, b, c, d] = address.ip;
        self.put_number(u64::from(address.port));
        self.put_mark(b':');
        self.put_number(u64::from(d));
        self.put_mark(b'.');
        self.put_number(u64::from(c));
        self.put_mark(b'.');
        self.put_number(u64::from(b));
        self.put_mark(b'.');
        self.put_number(u64::from(a));
    }

    /// Its octets.
    #[inline(always)]
    pub(crate) fn as_slice(&self) -> &[u8]
        ensures { result.now ≡ self.now }
    {
        &self.octets[self.start..]
    }
}
