//! The whole-number settings of the server, each with its name, its range and its default.

ghost use Rattle.std.specs.Prelude.{◌≡◌};
ghost use Rattle.settings.specs.ServeKeys.{default_of, least_of, most_of, name_of, path_of, takes};

/// A whole-number setting of the server.
#[derive(Clone, Copy, Debug, PartialEq, Eq)]
pub enum ServeKey {
    /// How many threads receive datagrams.
    Receivers,
    /// How many replies of one of them may wait to be sent.
    Ring,
    /// After how many failed receives in a row a thread stops.
    Faults,
    /// How long it is from one look at what is due to the next, in milliseconds.
    Tick,
    /// How many octets of datagrams that aren't received yet the system is asked to hold; 0: as
    /// many as it holds by itself.
    Buffer,
}

/// The row of a key in the table of settings.
#[derive(Clone, Copy)]
struct Row {
    name: &'static str,
    path: &'static str,
    least: u64,
    most: u64,
    default: u64,
}

impl Row {
    fn new(name: &'static str, path: &'static str, least: u64, most: u64, default: u64) -> Row
        ensures name { result.name.now ≡ name.now }
        ensures path { result.path.now ≡ path.now }
        ensures least { result.least ≡ least }
        ensures most { result.most ≡ most }
        ensures default { result.default ≡ default }
    {
        Row {
            name,
            path,
            least,
            most,
            default,
        }
    }
}

impl ServeKey {
    /// The keys, in the order in which they are tested.
    pub const ALL: [ServeKey; 5] = [
        ServeKey::Receivers,
        ServeKey::Ring,
        ServeKey::Faults,
        ServeKey::Tick,
        ServeKey::Buffer,
    ];

    /// Its name, its path, the least and the greatest number that it takes, and its default.
    fn row(self) -> Row
        ensures name { result.name.now ≡ name_of self }
        ensures path { result.path.now ≡ path_of self }
        ensures least { result.least ≡ least_of self }
        ensures most { result.most ≡ most_of self }
        ensures default { result.default ≡ default_of self }
    {
        match self {
            ServeKey::Receivers => Row::new("receivers", "serve.receivers", 1, 15, 4),
            ServeKey::Ring => Row::new("ring", "serve.ring", 1, 4_096, 64),
            ServeKey::Faults => Row::new("faults", "serve.faults", 1, 1_000, 16),
            ServeKey::Tick => Row::new("tick", "serve.tick", 1, 60_000, 20),
            ServeKey::Buffer => { Row::new("buffer", "serve.buffer", 0, 1_073_741_823, 8_388_608) }
        }
    }

    /// Its name among the settings of the server, as in `ring`.
    pub fn name(self) -> &'static str
        ensures { result.now ≡ name_of self }
    {
        self.row().name
    }

    /// Its name among all settings, as in `serve.ring`.
    pub fn path(self) -> &'static str
        ensures { result.now ≡ path_of self }
    {
        self.row().path
    }

    /// The least number that it takes.
    pub fn least(self) -> u64
        ensures { result ≡ least_of self }
    {
        self.row().least
    }

    /// The greatest number that it takes.
    pub fn most(self) -> u64
        ensures { result ≡ most_of self }
    {
        self.row().most
    }

    /// Its number if nothing is set.
    pub fn default(self) -> u64
        ensures { result ≡ default_of self }
    {
        self.row().default
    }

    /// Whether the number lies in its range.
    ///
    /// promise server-keys-stand-in-one-table: Name, range and default of each key stand in one
    /// table.
    pub fn takes(self, number: u64) -> bool
        ensures { result ≡ takes self number }
    {
        let row = self.row();
        row.least <= number && number <= row.most
    }
}
