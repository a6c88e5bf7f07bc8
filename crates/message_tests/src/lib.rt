//! Tests of messages that are read and written, and of probes, by values from outside. They use
//! public calls and stand above the libraries, so that these needn't be proved once more for them.
#![tactic(auto)]

#[cfg(test)]
mod codec;
#[cfg(test)]
mod probes;
