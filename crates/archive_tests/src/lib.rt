//! Tests of archives and replays, a module for each crate.
#![tactic(auto)]

#[cfg(test)]
mod kept;
#[cfg(test)]
mod test_archive_keep;
#[cfg(test)]
mod test_replay_run;
