//! Which texts are endpoints, the bytes of a request to one, and the status code of the reply.
#![tactic(auto)]

mod endpoint;
mod reply;
mod request;

pub use endpoint::{Endpoint, is_endpoint};
pub use reply::{Reply, read_reply};
