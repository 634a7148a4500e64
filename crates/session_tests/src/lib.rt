//! Tests of sessions over streams, a clock and a journal in memory.
#![tactic(auto)]

#[cfg(test)]
mod halls;
#[cfg(test)]
mod journaled;
#[cfg(test)]
mod tables;
#[cfg(test)]
mod tests;
