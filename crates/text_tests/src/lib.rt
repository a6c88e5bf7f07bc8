//! Tests of texts, as far as the cases of tests/ can't show the same: scripts and outcomes; keys of
//! settings; and the status page. They use public calls and stand above the libraries, so that these
//! needn't be proved once more for them.
#![tactic(auto)]

#[cfg(test)]
mod documents;
#[cfg(test)]
mod pages;
#[cfg(test)]
mod printed;
#[cfg(test)]
mod scripts;
