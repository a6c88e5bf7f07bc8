//! What holds of the two ends of a ring and of its mark, for who holds them in different threads.
ghost use Rattle.std.specs.Prelude.{◌≡◌, ℕ, List};
ghost use Rattle.reply_queues.specs.declared.outlet.Outlet.{Outlet};
ghost use Rattle.reply_queues.specs.declared.outlet.Ended.{Ended};
ghost use Rattle.reply_queues.specs.declared.inlet.Inlet.{Inlet};
ghost use Rattle.reply_queues.specs.declared.inlet.Settled.{Settled};
ghost use Rattle.reply_queues.specs.declared.inlet.Settled.TheVariants.{Whole};
ghost use Rattle.reply_queues.specs.Counts.{saturating_count};
ghost use Rattle.reply_queues.specs.Rings.{datagrams_put, datagrams_taken};
ghost use Rattle.reply_queues.specs.Rings.{IsRing, SameOutlet, SameInlet};
ghost use Rattle.reply_queues.specs.Rings.{Ends, IsMarkOf, MarksRing, Settles};

/// The ends of a ring stay its ends, whatever is put and taken, and the mark that an outlet gives
/// is that of the inlet's ring.
pub fn ends_stay_together()
    ensures outlet { (outlet later : Outlet) (inlet : Inlet) →
        IsRing outlet inlet → SameOutlet outlet later → IsRing later inlet }
    ensures inlet { (outlet : Outlet) (inlet later : Inlet) →
        IsRing outlet inlet → SameInlet inlet later → IsRing outlet later }
    ensures mark { (outlet later : Outlet) (mark : Ended) →
        SameOutlet outlet later → Ends later mark → MarksRing outlet mark }
    ensures marked { (inlet later : Inlet) (mark : Ended) →
        IsMarkOf mark inlet → SameInlet inlet later → IsMarkOf mark later }
    ensures outlets { (one two three : Outlet) →
        SameOutlet one two → SameOutlet two three → SameOutlet one three }
    ensures inlets { (one two three : Inlet) →
        SameInlet one two → SameInlet two three → SameInlet one three }
{}

/// If a ring settles as whole by the mark of its outlet, the datagrams that were taken are those
/// that were put, in order, and the number that is told is theirs.
pub fn whole_ring()
    ensures { (outlet : Outlet) (inlet : Inlet) (mark : Ended) (taken : ℕ) →
        Ends outlet mark → Settles mark inlet (Whole taken) →
        (datagrams_taken inlet ≡ datagrams_put outlet)
        × (taken ≡ saturating_count (datagrams_put outlet)) }
{}
