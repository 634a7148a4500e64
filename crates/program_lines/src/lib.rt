//! The statuses of the program, the lines that it prints beside replies, and how many workers open files allow.
#![tactic(auto)]

mod files;
mod line;
mod printed;
mod status;

pub use files::fitting_workers;
pub use line::Line;
pub use printed::{Summary, listening_line, summary_text};
pub use status::Status;
