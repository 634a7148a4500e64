//! The parts of a policy's JSON value.
ghost use Rattle.std.specs.Prelude.{◌≡◌, codes};
ghost use Rattle.std.specs.Str.{bytes_eq};
ghost use Rattle.json_text.specs.View.{tree_of};
ghost use Rattle.json_text.specs.Access.{member_of};
ghost use Rattle.bus_policy.specs.Parts as spec;

use json_text::Json;

fn is_text(json: &Json, text: &str) -> bool
    ensures { result ≡ spec.text_passes (λ t. bytes_eq t text.now) (tree_of json.now) }
{
    match json {
        Json::Str(t) => t.as_str() == text,
        _ => false,
    }
}

fn has_text(statement: &Json, key: &str, text: &str) -> bool
    ensures { result ≡ spec.is_text text.now (member_of key.now (tree_of statement.now)) }
{
    match statement.member(key) {
        Some(json) => is_text(json, text),
        None => false,
    }
}

pub(crate) fn has_sid(statement: &Json, sid: &str) -> bool
    ensures { result ≡ spec.has_sid sid.now (tree_of statement.now) }
{
    has_text(statement, "Sid", sid)
}

pub(crate) fn has_effect(statement: &Json, effect: &str) -> bool
    ensures { result ≡ spec.has_effect effect.now (tree_of statement.now) }
{
    has_text(statement, "Effect", effect)
}
