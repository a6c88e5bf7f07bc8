//! A key that is passed over.

ghost use Rattle.std.specs.Prelude.{◌≡◌, ◌<◌, ◌≤◌, option_map, string_bytes, IfOk, Some};
ghost use Rattle.settings.specs.Nearest.{changes_to, IsHint, IsNearest};

use crate::setting_key::SettingKey;
use std::alloc::{AllocError, Global};
use strsim::levenshtein;

/// How many letters a name may be wrong in for a known key to be taken for the one that was meant.
const MOST_EDITS: usize = 2;

/// A key of a text that is passed over, since it isn't known.
#[derive(Drop)]
pub struct UnknownKey {
    /// Its name among all settings, as in `zone.time_to_life`; the keys of every pool begin with
    /// `pool.`.
    pub path: String,
    /// The known key that needs the fewest changes of letters to come to it, if two or fewer do:
    /// a hint at what was meant.
    pub nearest: Option<&'static str>,
    ghost hint: { ∥ IsHint (string_bytes path) (option_map (λ name. name.now) nearest) ∥₁ },
}

/// How many changes of letters lead from a path to that of a key.
fn changes_to(alloc: Global, path: &str, key: SettingKey) -> Result<usize, AllocError>
    ensures { IfOk result (λ changes. changes ≡ changes_to path.now key) }
{
    levenshtein(alloc, path, key.path())
}

/// The nearest of the keys that were looked at, if one is near, and how many changes of letters a
/// nearer one needs fewer than.
#[derive(Drop)]
struct Nearest {
    key: Option<SettingKey>,
    fewest: usize,
}

impl Nearest {
    /// Looks at a key that needs so many changes.
    fn look_at(&mut self, key: SettingKey, edits: usize)
        ensures nearer { edits < self.old.fewest
            → self.new ≡ record { key = Some key; fewest = edits } }
        ensures kept { self.old.fewest ≤ edits → self.new ≡ self.old }
    {
        if edits < self.fewest {
            self.key = Some(key);
            self.fewest = edits;
        }
    }
}

/// The key with the fewest changes of letters to this path, if these are few.
fn nearest_of(
    alloc: Global,
    path: &str,
    keys: &[SettingKey],
) -> Result<Option<SettingKey>, AllocError>
    ensures { IfOk result (IsNearest keys.now path.now) }
{
    let mut nearest = Nearest {
        key: None,
        fewest: MOST_EDITS + 1,
    };
    for key in keys {
        let edits = changes_to(alloc, path, *key)?;
        nearest.look_at(*key, edits);
    }
    Ok(nearest.key)
}

/// The known key with the fewest changes of letters to this path, if these are few.
fn nearest_key(alloc: Global, path: &str) -> Result<Option<&'static str>, AllocError>
    ensures { IfOk result (λ hint. IsHint path.now (option_map (λ name. name.now) hint)) }
{
    match nearest_of(alloc, path, &SettingKey::ALL)? {
        Some(key) => Ok(Some(key.path())),
        None => Ok(None),
    }
}

impl UnknownKey {
    /// The key with this path, which isn't known.
    pub(crate) fn new(alloc: Global, path: String) -> Result<UnknownKey, AllocError>
        ensures { IfOk result (λ key. key.path ≡ path) }
    {
        let nearest = nearest_key(alloc, path.as_str())?;
        Ok(UnknownKey { path, nearest })
    }
}
