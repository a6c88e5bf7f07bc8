//! Settings of the zone that a script makes.

ghost use Rattle.std.specs.Prelude.{◌≡◌};
ghost use Rattle.zone_config.specs.Keys.{with_number};
ghost use Rattle.script.specs.Settings.{setting_of};

use ras_core::Config;
use std::marker::Model;
use value_texts::number_of;
use zone_config::Key;

/// A number within its key's range. Contracts see the key with the number.
#[derive(Drop)]
pub struct Setting {
    key: Key,
    number: u64,
}

impl Model for Setting {
    ghost use Rattle.std.specs.Prelude.{◌≡◌, ℕ, true};
    ghost use Rattle.zone_config.specs.declared.key.Key.{Key};
    ghost use Rattle.zone_config.specs.Keys.{takes};

    ghost Value = { Key × ℕ };

    ghost view = { λ s. (s.key, s.number) };

    ghost invariant = { λ s. takes s.key s.number ≡ true };
}

impl Setting {
    /// The setting of this key to this number; None if the key is unknown or the number is outside
    /// its range.
    pub fn new(key: &[u8], number: &[u8]) -> Option<Setting>
        ensures { result ≡ setting_of key.now number.now }
    {
        let key = Key::named(key)?;
        let number = number_of(key.least(), key.most(), number)?;
        Some(Setting { key, number })
    }

    /// The configuration in which this is set.
    pub fn apply(&self, config: Config) -> Config
        ensures { result ≡ with_number config self.now.0 self.now.1 }
    {
        let mut parts = config.into_parts();
        self.key.set(&mut parts, self.number);
        match Config::new(parts) {
            Ok(config) => config,
            Err(_) => unreachable!(),
        }
    }
}
