//! Whether a statement is about an asker.
ghost use Rattle.std.specs.Prelude.{◌≡◌, ◌↔◌, ◌⊎◌, IsTrue, Some, codes};
ghost use Rattle.leaf_match.specs.Piece.{Fits};
ghost use Rattle.leaf_match.specs.Like.{like_pieces};
ghost use Rattle.std.specs.Option.{option_copied};
ghost use Rattle.json_text.specs.Tree.{members_of};
ghost use Rattle.json_text.specs.View.{tree_of, pairs_of};
ghost use Rattle.json_text.specs.Access.{member_of};
ghost use Rattle.bus_policy.specs.Parts.{root_arn};
ghost use Rattle.bus_policy.specs.View.{asker_of};
ghost use Rattle.bus_policy.specs.Verdict as spec;

use crate::account::{EVERYONE, account_of_root};
use crate::asker::Asker;
use crate::parts::has_effect;
use crate::text_test::{TextTest, some_text};
use event_shape::{is_account, is_bus_arn};
use json_text::{Json, Text};
use leaf_match::like;

/// Whether the statement is a Deny that applies to the asker.
pub(crate) fn denies(statement: &Json, asker: &Asker) -> bool
    ensures { IsTrue result ↔ spec.Denies (asker_of asker.now) (tree_of statement.now) }
{
    has_effect(statement, "Deny") && applies(statement, asker)
}

/// Whether the statement is an Allow that applies to the asker.
pub(crate) fn allows(statement: &Json, asker: &Asker) -> bool
    ensures { IsTrue result ↔ spec.Allows (asker_of asker.now) (tree_of statement.now) }
{
    has_effect(statement, "Allow") && applies(statement, asker)
}

fn applies(statement: &Json, asker: &Asker) -> bool
    ensures { IsTrue result ↔ spec.Applies (asker_of asker.now) (tree_of statement.now) }
{
    has_principal(statement, asker.account)
        && has_text(statement, "Action", &PutEvents)
        && has_text(statement, "Resource", &OfBus { bus: asker.bus })
        && has_condition(statement, asker)
}

fn has_principal(statement: &Json, account: &str) -> bool
    ensures { IsTrue result ↔ spec.IsPrincipal account.now (member_of (codes "Principal") (tree_of statement.now)) }
{
    match statement.member("Principal") {
        Some(principal) => names_account(principal, account),
        None => false,
    }
}

fn names_account(json: &Json, account: &str) -> bool
    ensures { IsTrue result ↔ spec.IsPrincipal account.now (Some (tree_of json.now)) }
{
    match json {
        Json::Str(word) => word.as_str() == EVERYONE,
        Json::Obj(_) => has_text(json, "AWS", &OfAccount { account }),
        _ => false,
    }
}

fn has_text<T: TextTest>(json: &Json, key: &str, test: &T) -> bool
    ensures { IsTrue result ↔ spec.HasText (T.wanted test.now) (member_of key.now (tree_of json.now)) }
{
    match json.member(key) {
        Some(texts) => some_text(texts, test),
        None => false,
    }
}

/// A word for the account.
#[derive(Clone, Copy)]
struct OfAccount<'a> {
    account: &'a str,
}

impl<'a> TextTest for OfAccount<'a> {
    ghost wanted = { λ test. spec.Names test.account.now };

    fn passes(&self, text: &str) -> bool {
        text == EVERYONE || is_account(self.account) && stands_for(text, self.account)
    }
}

fn stands_for(word: &str, account: &str) -> bool
    ensures { IsTrue result ↔ ((word.now ≡ account.now) ⊎ (word.now ≡ root_arn account.now)) }
{
    word == account || is_root_of(word, account)
}

fn is_root_of(word: &str, account: &str) -> bool
    ensures { IsTrue result ↔ (word.now ≡ root_arn account.now) }
{
    match account_of_root(word) {
        Some(other) => other == account,
        None => false,
    }
}

/// A word for the action that puts events.
#[derive(Clone, Copy)]
struct PutEvents;

impl TextTest for PutEvents {
    ghost wanted = { λ _. spec.IsPutEvents };

    fn passes(&self, text: &str) -> bool {
        (text == EVERYONE) | (text == "events:*") | (text == "events:PutEvents")
    }
}

/// A word for the bus.
#[derive(Clone, Copy)]
struct OfBus<'a> {
    bus: &'a str,
}

impl<'a> TextTest for OfBus<'a> {
    ghost wanted = { λ test. spec.IsBus test.bus.now };

    fn passes(&self, text: &str) -> bool {
        text == EVERYONE || is_bus_arn(text, self.bus)
    }
}

fn has_condition(statement: &Json, asker: &Asker) -> bool
    ensures { IsTrue result ↔ spec.ConditionHolds (asker_of asker.now) (member_of (codes "Condition") (tree_of statement.now)) }
{
    match statement.member("Condition") {
        Some(condition) => condition_holds(condition, asker),
        None => true,
    }
}

fn condition_holds(json: &Json, asker: &Asker) -> bool
    ensures { IsTrue result ↔ spec.ConditionHolds (asker_of asker.now) (Some (tree_of json.now)) }
{
    match json {
        Json::Obj(members) => each_operator(members, asker),
        _ => false,
    }
}

fn each_operator(members: &[(Text, Json)], asker: &Asker) -> bool
    ensures { IsTrue result ↔ spec.EachOperator (asker_of asker.now) (members_of (pairs_of members.now)) }
{
    for (operator, keys) in members {
        if !operator_holds(operator.as_str(), keys, asker) {
            return false;
        }
    }
    true
}

fn operator_holds(operator: &str, keys: &Json, asker: &Asker) -> bool
    ensures { IsTrue result ↔ spec.OperatorHolds (asker_of asker.now) operator.now (tree_of keys.now) }
{
    match keys {
        Json::Obj(members) => each_key(operator, members, asker),
        _ => false,
    }
}

fn each_key(operator: &str, members: &[(Text, Json)], asker: &Asker) -> bool
    ensures { IsTrue result ↔ spec.EachKey (asker_of asker.now) operator.now (members_of (pairs_of members.now)) }
{
    for (key, texts) in members {
        if !key_holds(operator, key.as_str(), texts, asker) {
            return false;
        }
    }
    true
}

fn key_holds(operator: &str, key: &str, texts: &Json, asker: &Asker) -> bool
    ensures { IsTrue result ↔ spec.KeyHolds operator.now (spec.asked_for (asker_of asker.now) key.now) (tree_of texts.now) }
{
    match asked_for(asker, key) {
        Some(asked) => some_text(texts, &FitsBy { operator, asked }),
        None => false,
    }
}

/// The asker's text for a key of a condition.
fn asked_for<'a>(asker: &Asker<'a>, key: &str) -> Option<&'a str>
    ensures { option_copied result ≡ spec.asked_for (asker_of asker.now) key.now }
{
    if key == "events:source" {
        Some(asker.source)
    } else if key == "events:detail-type" {
        Some(asker.detail_type)
    } else {
        None
    }
}

/// A text that what is asked fits, by an operator of conditions.
#[derive(Clone, Copy)]
struct FitsBy<'a> {
    operator: &'a str,
    asked: &'a str,
}

impl<'a> TextTest for FitsBy<'a> {
    ghost wanted = { λ test wanted. spec.FitsBy test.operator.now wanted test.asked.now };

    fn passes(&self, text: &str) -> bool {
        equals(self.operator, text, self.asked) || is_like(self.operator, text, self.asked)
    }
}

fn equals(operator: &str, wanted: &str, asked: &str) -> bool
    ensures { IsTrue result ↔ ((operator.now ≡ codes "StringEquals") × (wanted.now ≡ asked.now)) }
{
    operator == "StringEquals" && wanted == asked
}

fn is_like(operator: &str, wanted: &str, asked: &str) -> bool
    ensures { IsTrue result ↔ ((operator.now ≡ codes "StringLike") × Fits (like_pieces wanted.now) asked.now) }
{
    operator == "StringLike" && like(wanted, asked)
}
