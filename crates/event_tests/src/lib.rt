//! Tests of events, patterns and policies: a module for each crate, and what they say of a row.
#![tactic(auto)]

#[cfg(test)]
mod rows;
#[cfg(test)]
mod test_bus_policy;
#[cfg(test)]
mod test_event_arns;
#[cfg(test)]
mod test_event_flatten;
#[cfg(test)]
mod test_event_shape;
#[cfg(test)]
mod test_event_text;
#[cfg(test)]
mod test_event_time;
#[cfg(test)]
mod test_pattern_meaning;
#[cfg(test)]
mod test_rule_automaton;
#[cfg(test)]
mod test_value_index;
