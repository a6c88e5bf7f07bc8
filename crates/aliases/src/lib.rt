//! The aliases that the endpoints of a zone hold.
//!
//! proved: a finite map; exactly duplicates are refused (`AliasTable::set`)
#![tactic(auto)]

mod fault;
mod holder;
mod table;

pub use fault::SetFault;
pub use table::AliasTable;
