//! A search tree: values in the order of their keys. Its nodes are made before they are needed, so no call on the tree allocates. Lists are
//! cut and joined without memory too.
#![tactic(auto)]

mod lists;
mod node;
mod subtree;
mod values;

pub use lists::{cut, join};
pub use node::Node;
pub use values::KeyTree;
