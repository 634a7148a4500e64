//! Delivery steps over any book of duties, any link and any clock.
#![tactic(auto)]

mod attempt;
mod book;
mod delivery;
mod held;
mod stepped;
mod turned;

pub use book::{BookFault, DutyBook};
pub use delivery::turn;
pub use held::{HeldDuty, Way};
pub use stepped::{Stepped, Stop};
pub use turned::Turned;
