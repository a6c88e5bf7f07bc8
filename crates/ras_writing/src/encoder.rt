//! Writing what many replies share (H.225.0). Each function says what it writes, and which bounds
//! its value keeps. It learns these bounds from the value's type.

ghost use Rattle.std.specs.Prelude.{false, ◌≡◌, ◌≤◌, ◌<◌, ◌+◌, ◌*◌, [], ◌∷◌, length, IsTrue};
ghost use Rattle.ras_writing.specs.Encoding.{Writes, boolean, whole};
ghost use Rattle.ras_writing.specs.Encoding as encoding;
ghost use Rattle.ras_writing.specs.Replies.{root_message, request_seq_num, protocol_identifier};
ghost use Rattle.ras_writing.specs.Replies.{identifier, bmp_string, characters, transport_address};
ghost use Rattle.ras_writing.specs.Replies.{band_width, null_choice, null_extension, zero_octet};
ghost use Rattle.ras_writing.specs.Replies.{digit_code, digits, alias_address, alias_addresses};
ghost use Rattle.ras_writing.specs.Replies.{alias_list};
ghost use Rattle.ras_module.specs.Aliases.{characters_of};
ghost use Rattle.ras_module.specs.DialledDigits.{is_dialled, AreDialled};
ghost use Rattle.ras_module.specs.Rooms.{text_room, aliases_room};
ghost use Rattle.ras_writing.specs.Properties.{IsSeq, IsName, IsAddress, IsDigits, IsH323Id};
ghost use Rattle.ras_writing.specs.Properties.{IsAlias, AreAliases};
ghost use Rattle.std.specs.List.{AllByRecursion};
ghost use Rattle.ras_module.specs.declared.alias.Alias.TheVariants as alias;

use per_bits::BitWriter;
use ras_module::{Address, Alias, DialledDigits, H323Id, ReplyAliases, RequestSeqNum};

/// A message before the extension marker of RasMessage, by its index.
pub fn root_message(writer: &mut BitWriter, index: u32)
    requires index { index ≤ 24 }
    requires room { 42 ≤ writer.old.room }
    ensures { Writes 42 (root_message index) writer.old writer.new }
{
    writer.bit(false);
    writer.whole(0, 24, index);
}

/// RequestSeqNum.
pub fn request_seq_num(writer: &mut BitWriter, seq: RequestSeqNum)
    requires room { 41 ≤ writer.old.room }
    ensures writes { Writes 41 (request_seq_num seq ∷ []) writer.old writer.new }
    ensures bounds { IsSeq seq }
{
    writer.whole(1, 65535, u32::from(seq.get()));
}

/// ProtocolIdentifier, version 2.
#[tactic(auto, unfolding(crate::specs::Replies::protocol_identifier))]
pub fn protocol_identifier(writer: &mut BitWriter)
    requires { 78 ≤ writer.old.room }
    ensures { Writes 78 protocol_identifier writer.old writer.new }
{
    writer.length(6);
    writer.octets(&[0x00, 0x08, 0x91, 0x4A, 0x00, 0x02]);
}

fn characters(writer: &mut BitWriter, text: &[u16])
    requires { 16 * length text.now ≤ writer.old.room }
    ensures writes { Writes (16 * length text.now) (characters text.now) writer.old writer.new }
    ensures bounds { AllByRecursion (λ x. x < 65536) text.now }
{
    for character in text {
        writer.bits(16, u32::from(*character));
    }
}

/// BMPString (SIZE(1..128)).
#[tactic(auto, unfolding(crate::specs::Replies::identifier))]
pub fn identifier(writer: &mut BitWriter, text: &[u16])
    requires some { 1 ≤ length text.now }
    requires few { length text.now ≤ 128 }
    requires room { 48 + 16 * length text.now ≤ writer.old.room }
    ensures writes { Writes (48 + 16 * length text.now) (identifier text.now) writer.old
        writer.new }
    ensures bounds { IsName text.now }
{
    writer.whole(1, 128, text.len() as u32);
    writer.align();
    characters(writer, text);
}

/// OCTET STRING of a fixed size.
fn octets(writer: &mut BitWriter, octets: &[u8])
    requires { 7 + 8 * length octets.now ≤ writer.old.room }
    ensures writes { Writes (7 + 8 * length octets.now) (encoding.octets octets.now ∷ [])
        writer.old writer.new }
    ensures bounds { AllByRecursion (λ x. x < 256) octets.now }
{
    writer.octets(octets);
}

/// The ipAddress of a TransportAddress.
#[tactic(auto, unfolding(crate::specs::Replies::transport_address))]
pub fn transport_address(writer: &mut BitWriter, address: &Address)
    requires { 122 ≤ writer.old.room }
    ensures writes { Writes 122 (transport_address address.now) writer.old writer.new }
    ensures bounds { IsAddress address.now }
{
    writer.bit(false);
    writer.whole(0, 6, 0);
    octets(writer, &address.ip);
    writer.whole(0, 65535, u32::from(address.port));
}

/// BandWidth, in units of 100 bit/s.
pub fn band_width(writer: &mut BitWriter, units: u32)
    requires { 41 ≤ writer.old.room }
    ensures { Writes 41 (band_width units ∷ []) writer.old writer.new }
{
    writer.whole(0, 4_294_967_295, units);
}

/// A root alternative of a CHOICE of NULLs, by the index of the last one and its own.
pub fn null_choice(writer: &mut BitWriter, last: u32, index: u32)
    requires index { index ≤ last }
    requires room { 42 ≤ writer.old.room }
    ensures { Writes 42 (null_choice last index) writer.old writer.new }
{
    writer.bit(false);
    writer.whole(0, last, index);
}

/// An open type of one octet 0: a NULL, or a BOOLEAN that is false.
pub fn zero_octet(writer: &mut BitWriter)
    requires { 38 ≤ writer.old.room }
    ensures { Writes 38 zero_octet writer.old writer.new }
{
    writer.length(1);
    writer.octets(&[0]);
}

/// An alternative after the extension marker that is a NULL, by its index there.
pub fn null_extension(writer: &mut BitWriter, index: u32)
    requires index { index < 64 }
    requires room { 46 ≤ writer.old.room }
    ensures { Writes 46 (null_extension index) writer.old writer.new }
{
    writer.bit(true);
    writer.small(index);
    zero_octet(writer);
}

/// The code of a character that may be dialled.
fn digit_code(character: u16) -> u32
    requires { IsTrue (is_dialled character) }
    ensures { result ≡ digit_code character }
{
    match character {
        35 => 0,
        42 => 1,
        44 => 2,
        _ => u32::from(character) - 45,
    }
}

fn digits(writer: &mut BitWriter, text: &[u16])
    requires dialled { AreDialled text.now }
    requires room { 4 * length text.now ≤ writer.old.room }
    ensures { Writes (4 * length text.now) (digits text.now) writer.old writer.new }
{
    for character in text {
        writer.bits(4, digit_code(*character));
    }
}

/// How many characters there are, at most 256.
fn count_of_256(writer: &mut BitWriter, count: u32)
    requires some { 1 ≤ count }
    requires few { count ≤ 256 }
    requires room { 15 ≤ writer.old.room }
    ensures { Writes 15 (whole 1 256 count ∷ []) writer.old writer.new }
{
    writer.align();
    writer.bits(8, count - 1);
}

/// One of two root alternatives, by its index.
#[tactic(auto, using(crate::proofs::Widths::widths))]
fn choice_of_two(writer: &mut BitWriter, index: u32)
    requires index { index ≤ 1 }
    requires room { 2 ≤ writer.old.room }
    ensures { Writes 2 (boolean false ∷ whole 0 1 index ∷ []) writer.old writer.new }
{
    writer.bit(false);
    writer.bits(1, index);
}

#[tactic(auto, unfolding(crate::specs::Replies::alias_address))]
fn dialled_digits(writer: &mut BitWriter, text: &DialledDigits)
    requires { 8 * text_room text.now ≤ writer.old.room }
    ensures writes { Writes (8 * text_room text.now) (alias_address (alias.Digits text.now))
        writer.old writer.new }
    ensures bounds { IsDigits text.now }
{
    let text = text.as_slice();
    choice_of_two(writer, 0);
    writer.whole(1, 128, text.len() as u32);
    writer.align();
    digits(writer, text);
}

#[tactic(auto, unfolding(crate::specs::Replies::alias_address))]
fn h323_id(writer: &mut BitWriter, text: &H323Id)
    requires { 8 * text_room text.now ≤ writer.old.room }
    ensures writes { Writes (8 * text_room text.now) (alias_address (alias.H323Id text.now))
        writer.old writer.new }
    ensures bounds { IsH323Id text.now }
{
    let text = text.as_slice();
    choice_of_two(writer, 1);
    count_of_256(writer, text.len() as u32);
    writer.align();
    characters(writer, text);
}

/// AliasAddress.
pub fn alias_address(writer: &mut BitWriter, alias: &Alias)
    requires { 8 * text_room (characters_of alias.now) ≤ writer.old.room }
    ensures writes { Writes (8 * text_room (characters_of alias.now)) (alias_address alias.now)
        writer.old writer.new }
    ensures bounds { IsAlias alias.now }
{
    match alias {
        Alias::Digits(text) => dialled_digits(writer, text),
        Alias::H323Id(text) => h323_id(writer, text),
    }
}

#[tactic(auto, using(crate::proofs::Behind::behind_append))]
fn alias_addresses(writer: &mut BitWriter, aliases: &[Alias])
    requires { 8 * aliases_room aliases.now ≤ writer.old.room }
    ensures writes { Writes (8 * aliases_room aliases.now) (alias_addresses aliases.now)
        writer.old writer.new }
    ensures bounds { AllByRecursion IsAlias aliases.now }
{
    for alias in aliases {
        alias_address(writer, alias);
    }
}

/// SEQUENCE OF AliasAddress, of no more aliases than a reply has.
pub fn alias_list(writer: &mut BitWriter, aliases: &[Alias])
    requires few { length aliases.now ≤ ReplyAliases.MOST }
    requires room { 23 + 8 * aliases_room aliases.now ≤ writer.old.room }
    ensures writes { Writes (23 + 8 * aliases_room aliases.now) (alias_list aliases.now)
        writer.old writer.new }
    ensures bounds { AreAliases aliases.now }
{
    writer.length(aliases.len() as u32);
    alias_addresses(writer, aliases);
}
