//! Texts of strangers, in UTF-16, written into HTML, JSON and Prometheus' text format so that no
//! character of theirs means anything to who reads them.
//!
//! proved: each text is as defined, and no special character is left (`html`, `json_string`,
//! `label`)
#![tactic(auto)]

mod character;
mod pieces;
mod texts;

pub use texts::{html, json_string, label};
