//! Kinds of requests, of replies, of turns and of answers, each with its label.

ghost use Rattle.std.specs.Prelude.{◌≡◌, ◌<◌};
ghost use Rattle.zone_view.specs.Kinds.{answer_place, deed_place, reply_place, request_place};
ghost use Rattle.zone_view.specs.Labels.{answer_label, deed_label, reply_label, request_label};

/// The requests that are served (H.225.0, RasMessage).
#[derive(Clone, Copy, Debug, PartialEq, Eq)]
pub enum RequestKind {
    Grq,
    Rrq,
    Urq,
    Arq,
    Brq,
    Drq,
    Irr,
}

impl RequestKind {
    pub const ALL: [RequestKind; 7] = [
        RequestKind::Grq,
        RequestKind::Rrq,
        RequestKind::Urq,
        RequestKind::Arq,
        RequestKind::Brq,
        RequestKind::Drq,
        RequestKind::Irr,
    ];

    /// Its place among them.
    pub fn place(self) -> usize
        ensures place { result ≡ request_place self }
        ensures within { result < 7 }
    {
        match self {
            RequestKind::Grq => 0,
            RequestKind::Rrq => 1,
            RequestKind::Urq => 2,
            RequestKind::Arq => 3,
            RequestKind::Brq => 4,
            RequestKind::Drq => 5,
            RequestKind::Irr => 6,
        }
    }

    /// Its abbreviation in H.225.0.
    pub fn label(self) -> &'static str
        ensures { result.now ≡ request_label self }
    {
        match self {
            RequestKind::Grq => "GRQ",
            RequestKind::Rrq => "RRQ",
            RequestKind::Urq => "URQ",
            RequestKind::Arq => "ARQ",
            RequestKind::Brq => "BRQ",
            RequestKind::Drq => "DRQ",
            RequestKind::Irr => "IRR",
        }
    }
}

/// The messages that a gatekeeper sends (H.225.0, RasMessage).
#[derive(Clone, Copy, Debug, PartialEq, Eq)]
pub enum ReplyKind {
    Gcf,
    Grj,
    Rcf,
    Rrj,
    Ucf,
    Urj,
    Acf,
    Arj,
    Bcf,
    Brj,
    Dcf,
    Drj,
    Irq,
    Rip,
}

impl ReplyKind {
    pub const ALL: [ReplyKind; 14] = [
        ReplyKind::Gcf,
        ReplyKind::Grj,
        ReplyKind::Rcf,
        ReplyKind::Rrj,
        ReplyKind::Ucf,
        ReplyKind::Urj,
        ReplyKind::Acf,
        ReplyKind::Arj,
        ReplyKind::Bcf,
        ReplyKind::Brj,
        ReplyKind::Dcf,
        ReplyKind::Drj,
        ReplyKind::Irq,
        ReplyKind::Rip,
    ];

    /// Its place among them.
    pub fn place(self) -> usize
        ensures place { result ≡ reply_place self }
        ensures within { result < 14 }
    {
        match self {
            ReplyKind::Gcf => 0,
            ReplyKind::Grj => 1,
            ReplyKind::Rcf => 2,
            ReplyKind::Rrj => 3,
            ReplyKind::Ucf => 4,
            ReplyKind::Urj => 5,
            ReplyKind::Acf => 6,
            ReplyKind::Arj => 7,
            ReplyKind::Bcf => 8,
            ReplyKind::Brj => 9,
            ReplyKind::Dcf => 10,
            ReplyKind::Drj => 11,
            ReplyKind::Irq => 12,
            ReplyKind::Rip => 13,
        }
    }

    /// Its abbreviation in H.225.0.
    pub fn label(self) -> &'static str
        ensures { result.now ≡ reply_label self }
    {
        match self {
            ReplyKind::Gcf => "GCF",
            ReplyKind::Grj => "GRJ",
            ReplyKind::Rcf => "RCF",
            ReplyKind::Rrj => "RRJ",
            ReplyKind::Ucf => "UCF",
            ReplyKind::Urj => "URJ",
            ReplyKind::Acf => "ACF",
            ReplyKind::Arj => "ARJ",
            ReplyKind::Bcf => "BCF",
            ReplyKind::Brj => "BRJ",
            ReplyKind::Dcf => "DCF",
            ReplyKind::Drj => "DRJ",
            ReplyKind::Irq => "IRQ",
            ReplyKind::Rip => "RIP",
        }
    }
}

/// What a turn of the timers did.
#[derive(Clone, Copy, Debug, PartialEq, Eq)]
pub enum TurnDeed {
    /// A registration whose time to live was over ended.
    RegistrationOver,
    /// A silent endpoint in a call was asked for its state.
    Interrogation,
    /// An endpoint in a call that didn't answer lost its legs.
    Silence,
    /// A request in progress was served again.
    Retry,
    /// A kept reply that was over was let go.
    KeptOver,
    /// The pools made a turn.
    PoolTurn,
    /// Nothing was due.
    Idle,
}

impl TurnDeed {
    pub const ALL: [TurnDeed; 7] = [
        TurnDeed::RegistrationOver,
        TurnDeed::Interrogation,
        TurnDeed::Silence,
        TurnDeed::Retry,
        TurnDeed::KeptOver,
        TurnDeed::PoolTurn,
        TurnDeed::Idle,
    ];

    /// Its place among them.
    pub fn place(self) -> usize
        ensures place { result ≡ deed_place self }
        ensures within { result < 7 }
    {
        match self {
            TurnDeed::RegistrationOver => 0,
            TurnDeed::Interrogation => 1,
            TurnDeed::Silence => 2,
            TurnDeed::Retry => 3,
            TurnDeed::KeptOver => 4,
            TurnDeed::PoolTurn => 5,
            TurnDeed::Idle => 6,
        }
    }

    /// A word for it.
    pub fn label(self) -> &'static str
        ensures { result.now ≡ deed_label self }
    {
        match self {
            TurnDeed::RegistrationOver => "registration_over",
            TurnDeed::Interrogation => "interrogation",
            TurnDeed::Silence => "silence",
            TurnDeed::Retry => "retry",
            TurnDeed::KeptOver => "kept_over",
            TurnDeed::PoolTurn => "pool_turn",
            TurnDeed::Idle => "idle",
        }
    }
}

/// What a pool answered.
#[derive(Clone, Copy, Debug, PartialEq, Eq)]
pub enum Answer {
    Lent,
    Refused,
    Wait,
}

impl Answer {
    pub const ALL: [Answer; 3] = [Answer::Lent, Answer::Refused, Answer::Wait];

    /// Its place among them.
    pub fn place(self) -> usize
        ensures place { result ≡ answer_place self }
        ensures within { result < 3 }
    {
        match self {
            Answer::Lent => 0,
            Answer::Refused => 1,
            Answer::Wait => 2,
        }
    }

    /// A word for it.
    pub fn label(self) -> &'static str
        ensures { result.now ≡ answer_label self }
    {
        match self {
            Answer::Lent => "lent",
            Answer::Refused => "refused",
            Answer::Wait => "wait",
        }
    }
}
