//! A link to the endpoints of this machine over HTTP, with a connection for each send.
#![tactic(auto)]

mod exchanged;
mod heads;
mod http_link;

pub use http_link::HttpLink;
