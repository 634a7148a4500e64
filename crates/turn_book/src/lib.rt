//! One value that threads change in turns. All turns form one history, and each thread's pass carries what it has seen of it.
#![tactic(auto)]

mod fault;
mod hall;
mod story;
mod view;

pub use fault::NoMemory;
pub use hall::{Hall, Pass};
pub use story::Story;
pub use view::View;
