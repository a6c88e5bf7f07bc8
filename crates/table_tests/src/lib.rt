//! Tests of the zone's tables, and of what is due by them. They stand
//! above the tables, so that none of these needs to be proved once more for them.
#![tactic(auto)]

#[cfg(test)]
mod calls;
#[cfg(test)]
mod copies;
#[cfg(test)]
mod due_items;
#[cfg(test)]
mod due_moments;
#[cfg(test)]
mod endpoints;
#[cfg(test)]
mod fixtures;
#[cfg(test)]
mod held_aliases;
#[cfg(test)]
mod kept;
#[cfg(test)]
mod limits;
#[cfg(test)]
mod quiet;
#[cfg(test)]
mod request_octets;
#[cfg(test)]
mod rows;
