//! The kinds of tests that objects name.
ghost use Rattle.std.specs.Prelude.{◌≡◌, option_map};
ghost use Rattle.json_text.specs.Tree.{members_of};
ghost use Rattle.json_text.specs.View.{tree_of, pairs_of};
ghost use Rattle.pattern_read.specs.Kind as spec;

use json_text::{Json, Members};

#[derive(Clone, Copy)]
pub(crate) enum Kind {
    Prefix,
    Suffix,
    EqualsIgnoreCase,
    Wildcard,
    AnythingBut,
    Numeric,
    Cidr,
    Exists,
}

fn kind_of(key: &str) -> Option<Kind>
    ensures { result ≡ spec.kind_of key.now }
{
    match key {
        "prefix" => Some(Kind::Prefix),
        "suffix" => Some(Kind::Suffix),
        "equals-ignore-case" => Some(Kind::EqualsIgnoreCase),
        "wildcard" => Some(Kind::Wildcard),
        "anything-but" => Some(Kind::AnythingBut),
        "numeric" => Some(Kind::Numeric),
        "cidr" => Some(Kind::Cidr),
        "exists" => Some(Kind::Exists),
        _ => None,
    }
}

/// The kind and the operand of an object with one member, whose key names a test.
pub(crate) fn named_in(members: Members) -> Option<(Kind, Json)>
    ensures { option_map (λ n. (n.0, tree_of n.1)) result
        ≡ spec.named_in (members_of (pairs_of members.items)) }
{
    let mut members = members;
    match members.pop() {
        Some((key, operand)) => {
            if !members.is_empty() {
                return None;
            }
            match kind_of(key.as_str()) {
                Some(kind) => Some((kind, operand)),
                None => None,
            }
        }
        None => None,
    }
}
