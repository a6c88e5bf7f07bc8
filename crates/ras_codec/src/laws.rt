//! What holds of the octets of replies, whatever is written.

ghost use Rattle.std.specs.Prelude.{◌≡◌, ◌≤◌, length};
ghost use Rattle.ras_module.specs.Rooms.{room_of};
ghost use Rattle.ras_module.specs.declared.reply.Reply.{Reply};
ghost use Rattle.ras_writing.specs.Replies.{encoding_of};
ghost use Rattle.ras_writing.specs.Properties.{IsReply, ReadsBack};

/// What is written for a reply is read as this reply, by the grammar of replies.
///
/// promise written-replies-read-back: The octets of each reply are read as that reply, by the
/// grammar of replies (`ReadsBack`, `IsReply`).
pub fn written_reads_back()
    ensures { (reply : Reply) → IsReply reply → ReadsBack reply }
{}

/// Two replies with the same octets are the same reply.
///
/// promise one-reply-for-an-encoding: Two replies with one encoding are one.
pub fn one_reply()
    ensures { (a : Reply) (b : Reply) → IsReply a → IsReply b → encoding_of a ≡ encoding_of b → a
        ≡ b }
{}

/// A reply has no more octets than its room.
///
/// promise reply-room-is-enough: No encoding is longer than its reply's room.
pub fn room_is_enough()
    ensures { (reply : Reply) → IsReply reply → length (encoding_of reply) ≤ room_of reply }
{}
