//! Tests of the zone, with pools that count their calls, as scripts show it octet for octet; of
//! pools and of sets of pools; of recorded steps; and of worlds. They stand above the libraries, so
//! that none of these needs to be proved once more for them.
#![tactic(auto)]

#[cfg(test)]
mod counting;
#[cfg(test)]
mod faults;
#[cfg(test)]
mod fixtures;
#[cfg(test)]
mod messages;
#[cfg(test)]
mod pool;
#[cfg(test)]
mod replays;
#[cfg(test)]
mod worlds;
#[cfg(test)]
mod zone;
