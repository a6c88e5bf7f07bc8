//! What tests of scripts share: a script that is read, and what a run of it returns and prints.

use pools::Pool;
use script::{Input, Output, RunFault, Script, ScriptFault, read_script, run_script};
use std::alloc::Global;

/// What a run returns, and how many octets it writes.
pub(crate) type Answer = (Result<(), RunFault>, usize);

/// The script that a text is.
pub(crate) fn script_of(alloc: Global, text: &[u8]) -> Result<Script, ScriptFault> {
    read_script(alloc, &mut Input::new(text))
}

/// What a run has returned and written.
#[derive(Drop)]
pub(crate) struct Ran {
    pub(crate) answer: Result<(), RunFault>,
    pub(crate) text: Vec<u8>,
}

impl Ran {
    /// What was returned, and how many octets were written.
    pub(crate) fn counted(&self) -> Answer {
        (self.answer, self.text.len())
    }
}

/// Runs a script with these pools, and with these fresh ones.
pub(crate) fn run_with<P: Pool>(
    alloc: Global,
    script: Script,
    pools: Vec<P>,
    fresh: Vec<P>,
) -> Ran {
    let mut out = Output::new(Vec::new(alloc));
    let answer = run_script(alloc, script, pools, fresh, &mut out);
    let text = out.into_writer();
    Ran { answer, text }
}
