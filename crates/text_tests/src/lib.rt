//! Tests of texts, numbers, one text against a pattern, and values by key: a module for each crate.
#![tactic(auto)]

#[cfg(test)]
mod rows;
#[cfg(test)]
mod test_input_transform;
#[cfg(test)]
mod test_json_text;
#[cfg(test)]
mod test_key_tree;
#[cfg(test)]
mod test_leaf_match;
#[cfg(test)]
mod test_name_rows;
#[cfg(test)]
mod test_numeric_keys;
#[cfg(test)]
mod test_shared_text;
