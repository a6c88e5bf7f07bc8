//! The replay of a book.

ghost use Rattle.std.specs.Prelude.{◌↔◌, IfOk, IsTrue};
ghost use Rattle.books.specs.Books.{BookRun};

use books::Book;
use pools::Pool;
use ras_core::Zone;
use ras_machine::Machine;
use std::alloc::AllocError;
use step_check::redo;

/// Whether the steps of the book, done again one after the other from its base, lead to the state
/// of the zone. One running machine does them all; the book and the zone stay as they are.
///
/// promise book-replays-if-a-run: A book replays if and only if its entries are a run to the zone
/// (`BookRun`).
pub fn replays<P: Pool>(book: &Book, zone: &Zone<P>) -> Result<bool, AllocError>
    ensures { IfOk result (λ is_run. IsTrue is_run
        ↔ BookRun book.now.base book.now.entries.items zone.now.state) }
{
    leads_to(book, zone.machine())
}

/// Whether the steps of the book lead to where this machine stands.
fn leads_to(book: &Book, end: &Machine) -> Result<bool, AllocError>
    ensures { IfOk result (λ is_run. IsTrue is_run
        ↔ BookRun book.now.base book.now.entries.items end.now) }
{
    let mut machine = book.base.copy()?.into_machine();
    for entry in &book.entries {
        let is_step = redo(&mut machine, &entry.event, &entry.outcome)?;
        if !is_step {
            return Ok(false);
        }
    }
    Ok(machine.is_same(end))
}
