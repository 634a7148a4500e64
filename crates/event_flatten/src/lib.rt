//! The scalars of an event at the paths that are wanted of it.
#![tactic(auto)]

mod fields;
mod found;
mod leaf;
mod path;
mod paths;
mod walk;
mod wanted;

pub use fields::Fields;
pub use leaf::Leaf;
pub use path::Path;
pub use paths::Paths;
