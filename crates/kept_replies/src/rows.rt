//! The rows of what is kept, and changes of one of them.

ghost use Rattle.std.specs.Prelude.{◌≡◌, ◌<◌, ◌≤◌, None, IfSome, slice_get, swap_remove};
ghost use Rattle.std.specs.Option.{option_map, IsSomeAnd};
ghost use Rattle.indexmap.specs.IndexMap.{get, spare};
ghost use Rattle.kept_replies.specs.Keys.{same_key};
ghost use Rattle.kept_replies.specs.Kept.{birth_of, left_in, finished, postponed};
ghost use Rattle.kept_replies.specs.inside.Stored.{Puts, Appends, Rewrites, Removes};

use crate::entry::{KeptEntry, KeptState};
use crate::kept_reply::KeptReply;
use crate::key::KeptKey;
use indexmap::IndexMap;

/// The birth of the row at this place.
pub(crate) fn born_at(rows: &IndexMap<KeptKey, KeptEntry>, place: usize) -> Option<u64>
    ensures { result ≡ option_map birth_of (slice_get rows.now.entries place) }
{
    let (_key, entry) = rows.get_index(place)?;
    Some(entry.born)
}

/// Takes out the row at this place, if there is one, and the last comes in its place.
pub(crate) fn take_row(rows: &mut IndexMap<KeptKey, KeptEntry>, place: usize)
    ensures removes { Removes rows.old rows.new (slice_get rows.old.entries place) }
    ensures entries { IfSome (slice_get rows.old.entries place)
        (λ row. rows.new.entries ≡ swap_remove rows.old.entries place row) }
{
    rows.swap_remove_index(place);
}

/// Puts an entry in place of that under this key, if there is one.
pub(crate) fn replace_entry(
    rows: &mut IndexMap<KeptKey, KeptEntry>,
    key: &KeptKey,
    entry: KeptEntry,
)
    ensures { Rewrites (λ other. entry) rows.old rows.new key.now }
{
    if let Some(place) = rows.get_mut(key) {
        *place = entry;
    }
}

/// Notes that the request of the entry under this key was answered.
pub(crate) fn write_done(
    rows: &mut IndexMap<KeptKey, KeptEntry>,
    key: &KeptKey,
    reply: KeptReply,
    until: u64,
)
    ensures { Rewrites (finished reply until) rows.old rows.new key.now }
{
    if let Some(entry) = rows.get_mut(key) {
        entry.state = KeptState::Done { reply, until };
    }
}

/// Notes that the request of the entry under this key waits once more.
pub(crate) fn write_retry(rows: &mut IndexMap<KeptKey, KeptEntry>, key: &KeptKey, moment: u64)
    requires { IsSomeAnd (get same_key rows.old key.now) (λ entry. 2 ≤ left_in entry.state) }
    ensures { Rewrites (postponed moment) rows.old rows.new key.now }
{
    if let Some(entry) = rows.get_mut(key) {
        if let KeptState::Pending { retry, left, .. } = &mut entry.state {
            *retry = moment;
            *left -= 1;
        }
    }
}
