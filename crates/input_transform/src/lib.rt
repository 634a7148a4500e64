//! What a target gets of an event: paths into the event, and templates that are filled from it.
#![tactic(auto)]

mod escape;
mod fault;
mod fill;
mod flat;
mod laws;
mod name;
mod path;
mod path_text;
mod piece;
mod rewriting;
mod template;
mod value;

pub use fault::{FillFault, PathFault, TemplateFault};
pub use fill::{Input, fill_tree};
pub use laws::{filled_text_spells_the_tree, one_path, one_template};
pub use path::{JsonPath, Step};
pub use piece::{Known, Piece};
pub use template::Template;
