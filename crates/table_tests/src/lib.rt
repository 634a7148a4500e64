//! Tests of the rule set, of changes, of deliveries and of the replies to calls, a module for each crate. They have what no request can
//! show; the rest is in examples/tables/.
#![tactic(auto)]

#[cfg(test)]
mod changes;
#[cfg(test)]
mod test_api_replies;
#[cfg(test)]
mod test_call_replies;
#[cfg(test)]
mod test_delivery_duties;
#[cfg(test)]
mod test_duty_journal;
#[cfg(test)]
mod test_journal;
#[cfg(test)]
mod test_journal_check;
#[cfg(test)]
mod test_router_core;
#[cfg(test)]
mod test_rule_table;
