//! Replays: which events each selects of an archive, in which order it repeats them, and all replays together.
#![tactic(auto)]

mod laws;
mod replay;
mod replays;
mod row;
mod selection;
mod settings;
mod state;

pub use laws::{a_selection_is_in_order, steps_are_a_front_of_the_selection};
pub use replay::{Replay, Rest};
pub use replays::{MOST_RUNNING, NewReplay, Replays};
pub use row::{NumberedName, ReplayRow, Stepped};
pub use selection::TimeRange;
pub use settings::{ReplaySettings, RuleNames};
pub use state::{IllegalStatus, ReplayState};
