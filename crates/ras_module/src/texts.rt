//! How much room texts take in a reply.

ghost use Rattle.std.specs.Prelude.{◌≡◌};
ghost use Rattle.ras_module.specs.Rooms.{text_room};

/// Octets that are enough for a text of a reply: two for each character, and some for what stands
/// before them.
pub fn text_room(text: &[u16]) -> usize
    ensures { result ≡ text_room text.now }
{
    12 + 2 * text.len()
}
