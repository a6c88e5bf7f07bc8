//! What makes the entries of a book a run, with calls that are counted seat by seat, and what they
//! do to the bandwidth in use.

ghost use Rattle.std.specs.Prelude.{◌≡◌, ◌≤◌, ◌+◌, ◌++◌, ◌∷◌, [], List, length};
ghost use Rattle.admission.specs.Calls.{in_use};
ghost use Rattle.zone_events.specs.declared.change.Change.{Change};
ghost use Rattle.zone_events.specs.declared.outcome.Outcome.{Outcome};
ghost use Rattle.ras_machine.specs.State.{State};
ghost use Rattle.ras_core.specs.Runs.{ChangeStep};
ghost use Rattle.books.specs.declared.book.Entry.{Entry};
ghost use Rattle.books.specs.Books.{AreCounted, BookRun, entries_of_seat};
ghost use Rattle.books.specs.Totals.{lent_of, units_lent};

/// Without entries, the book leads from a state to that state, and its calls are counted.
///
/// promise book-begins-without-entries: A book without entries is a run from its base to its base
/// (`BookRun`, `AreCounted`).
pub fn a_book_begins_without_entries()
    ensures run { (base : State) → BookRun base [] base }
    ensures counted { AreCounted [] }
{}

/// One more entry, made by a step from where the book leads to, leads on to the state after that
/// step. If its call is the number of entries of its seat so far, the calls stay counted.
///
/// promise book-goes-on-by-a-step: With one more entry, made by a step, a book is a run to the
/// state after it (`BookRun`).
pub fn a_book_goes_on_by_a_step()
    ensures run { (base now after : State) (entries : List Entry) (entry : Entry)
        → BookRun base entries now → ChangeStep now entry.event entry.outcome after
        → BookRun base (entries ++ entry ∷ []) after }
    ensures counted { (entries : List Entry) (entry : Entry) → AreCounted entries
        → entry.call ≡ length (entries_of_seat entry.seat entries)
        → AreCounted (entries ++ entry ∷ []) }
{}

/// After a step, no more bandwidth is in use than was in use before it, plus the units that were
/// lent in it. The settings stay, and the machine made one step more.
///
/// promise step-uses-no-more-than-lent: After a step no more is in use than before plus what was
/// lent, and the settings stay (`lent_of`).
pub fn a_step_uses_no_more_than_is_lent()
    ensures units { (s : State) (what : Change) (outcome : Outcome) (after : State)
        → ChangeStep s what outcome after → in_use after.tables.calls
        ≤ in_use s.tables.calls + units_lent outcome.answer }
    ensures settings { (s : State) (what : Change) (outcome : Outcome) (after : State)
        → ChangeStep s what outcome after → after.tables.config ≡ s.tables.config }
    ensures steps { (s : State) (what : Change) (outcome : Outcome) (after : State)
        → ChangeStep s what outcome after → after.steps ≡ s.steps + 1 }
{}

/// The same holds of all steps of a book together.
///
/// promise book-uses-no-more-than-lent: After the steps of a book no more is in use than before plus
/// what was lent in them, and the settings stay (`lent_of`).
pub fn a_book_uses_no_more_than_is_lent()
    ensures units { (base now : State) (entries : List Entry) → BookRun base entries now
        → in_use now.tables.calls ≤ in_use base.tables.calls + lent_of entries }
    ensures settings { (base now : State) (entries : List Entry) → BookRun base entries now
        → now.tables.config ≡ base.tables.config }
    ensures steps { (base now : State) (entries : List Entry) → BookRun base entries now
        → now.steps ≡ base.steps + length entries }
{}
