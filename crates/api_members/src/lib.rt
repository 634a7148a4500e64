//! The members of a request: what a call asks of each, and the first refusal.
#![tactic(auto)]

mod asked;
mod check;
mod checked_entry;
mod count;
mod entry;
mod event;
mod fault;
mod json_type;
mod laws;
mod members;
mod replay;
mod target;
mod value;
mod why;

pub use asked::{Asked, Syntax};
pub use check::check_members;
pub use checked_entry::{CheckedEntry, check_entries, total_size};
pub use count::{count_given, count_or};
pub use entry::{read_entries, read_text, read_texts};
pub use event::read_event;
pub use fault::CallFault;
pub use laws::one_first_refusal;
pub use members::{given, members_in, text_given, text_of, values_in};
pub use replay::{archive_of_source, destination_of, filter_given, time_given};
pub use target::{
    age_given, attempts_given, read_dead_letter, read_input, read_input_path, read_transformer,
};
pub use value::{bus_given, bus_of_source};
