//! ARNs of this account's resources.
ghost use Rattle.std.specs.Prelude.{◌≡◌, ◌++◌, ℕ, List, codes, MatchOption};
ghost use Rattle.event_shape.specs.Names.{events_arn, rule_arn};
ghost use Rattle.event_arns.specs.Arns as spec;

use event_shape::{DEFAULT_BUS, is_archive_name, is_bus_name, is_rule_name};

/// What comes before the kind of a resource.
const BEFORE_KIND: &str = "arn:aws:events:us-east-1:111122223333:";

/// The name of the bus, if the text is a bus's ARN.
pub fn bus_of_arn(arn: &str) -> Option<&str>
    ensures { MatchOption result
        ((bus : List ℕ) → ¬ spec.IsBusArn arn.now bus)
        (λ bus. spec.IsBusArn arn.now bus.now) }
{
    match after_kind(arn, "event-bus/") {
        Some(name) => if is_bus_name(name) { Some(name) } else { None },
        None => None,
    }
}

/// The name of the archive, if the text is an archive's ARN.
pub fn archive_of_arn(arn: &str) -> Option<&str>
    ensures { MatchOption result
        ((archive : List ℕ) → ¬ spec.IsArchiveArn arn.now archive)
        (λ archive. spec.IsArchiveArn arn.now archive.now) }
{
    match after_kind(arn, "archive/") {
        Some(name) => if is_archive_name(name) {
            Some(name)
        } else {
            None
        },
        None => None,
    }
}

/// The name of the rule, if the text is the ARN of a rule on this bus.
pub fn rule_of_arn<'a>(arn: &'a str, bus: &str) -> Option<&'a str>
    ensures { MatchOption result
        ((rule : List ℕ) → ¬ spec.IsRuleArn arn.now bus.now rule)
        (λ rule. spec.IsRuleArn arn.now bus.now rule.now) }
{
    match rule_name_in(arn, bus) {
        Some(name) => if is_rule_name(name) { Some(name) } else { None },
        None => None,
    }
}

/// The part of the text that is the name, if the text is the ARN of a rule on this bus. The name is not checked.
fn rule_name_in<'a>(arn: &'a str, bus: &str) -> Option<&'a str>
    ensures { MatchOption result
        ((rule : List ℕ) → ¬ (arn.now ≡ rule_arn bus.now rule))
        (λ rule. arn.now ≡ rule_arn bus.now rule.now) }
{
    match after_kind(arn, "rule/") {
        Some(rest) => if bus == DEFAULT_BUS {
            Some(rest)
        } else {
            after_bus(rest, bus)
        },
        None => None,
    }
}

/// The part of the text after the kind, if the text is the ARN of a resource of this kind.
fn after_kind<'a>(text: &'a str, kind: &str) -> Option<&'a str>
    ensures { MatchOption result
        ((rest : List ℕ) → ¬ (text.now ≡ events_arn (kind.now ++ rest)))
        (λ rest. text.now ≡ events_arn (kind.now ++ rest.now)) }
{
    match after_prefix(text, BEFORE_KIND) {
        Some(resource) => after_prefix(resource, kind),
        None => None,
    }
}

/// The text after the bus and a slash, if it begins with them.
fn after_bus<'a>(text: &'a str, bus: &str) -> Option<&'a str>
    ensures { MatchOption result
        ((rest : List ℕ) → ¬ (text.now ≡ bus.now ++ (codes "/" ++ rest)))
        (λ rest. text.now ≡ bus.now ++ (codes "/" ++ rest.now)) }
{
    match after_prefix(text, bus) {
        Some(rest) => after_prefix(rest, "/"),
        None => None,
    }
}

/// The text after the prefix, if it begins with it.
fn after_prefix<'a>(text: &'a str, prefix: &str) -> Option<&'a str>
    ensures { MatchOption result
        ((rest : List ℕ) → ¬ (text.now ≡ prefix.now ++ rest))
        (λ rest. text.now ≡ prefix.now ++ rest.now) }
{
    text.strip_prefix(prefix)
}
