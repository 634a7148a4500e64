//! Who may put events on a bus: a policy's text is read, and decides for each asker.
#![tactic(auto)]

mod account;
mod applying;
mod asker;
mod change;
mod condition;
mod deciding;
mod fault;
mod grammar;
mod laws;
mod naming;
mod parts;
mod policy;
mod reading;
mod statement;
mod statement_id;
mod storing;
mod text_test;
mod verdict;
mod verdicts;
mod words;

pub use asker::Asker;
pub use change::{Grantee, Removed};
pub use fault::{PolicyCause, PolicyFault};
pub use laws::{one_policy, one_verdict};
pub use policy::Policy;
pub use statement_id::is_statement_id;
pub use verdict::Verdict;
pub use verdicts::bus_verdict;
