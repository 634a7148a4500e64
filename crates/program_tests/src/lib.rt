//! Tests of the program over streams, a clock and a host in memory.
#![tactic(auto)]

#[cfg(test)]
mod clauses;
#[cfg(test)]
mod drill;
#[cfg(test)]
mod journal;
#[cfg(test)]
mod program;
#[cfg(test)]
mod runs;
#[cfg(test)]
mod serve;
