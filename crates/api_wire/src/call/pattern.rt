//! The member EventPattern.
ghost use Rattle.std.specs.Prelude.{◌≡◌, IfOk};
ghost use Rattle.json_text.specs.Tree.{members_of};
ghost use Rattle.json_text.specs.View.{pairs_of};
ghost use Rattle.api_replies.specs.declared.member.Member.TheVariants as member_is;
ghost use Rattle.api_members.specs.declared.asked.Asked.TheVariants as asked_is;
ghost use Rattle.api_members.specs.declared.asked.Syntax.TheVariants as syntax_is;
ghost use Rattle.api_members.specs.Given.{text_given, text_of};
ghost use Rattle.api_members.specs.Refusal.{IsSoundMember};
ghost use Rattle.api_members.specs.Value.{IsPattern};

use api_members::{text_given, text_of};
use api_replies::Member;
use json_text::{Json, NoMemory, Text};
use pattern_read::{PatternFault, SharedPattern};
use std::alloc::Global;

/// The pattern that EventPattern spells.
pub(super) fn read_pattern(
    alloc: Global,
    members: &[(Text, Json)],
) -> Result<SharedPattern, NoMemory>
    requires { IsPattern (text_of member_is.EventPattern (members_of (pairs_of members.now))) }
    ensures { IfOk result (λ pattern. pattern ≡ text_of member_is.EventPattern (members_of (pairs_of members.now))) }
{
    pattern_of(alloc, text_of(members, Member::EventPattern))
}

/// The same, if EventPattern is given.
pub(super) fn pattern_given(
    alloc: Global,
    members: &[(Text, Json)],
) -> Result<Option<SharedPattern>, NoMemory>
    requires { IsSoundMember (asked_is.Optional member_is.EventPattern syntax_is.Pattern) (members_of (pairs_of members.now)) }
    ensures { IfOk result (λ pattern. pattern ≡ text_given member_is.EventPattern (members_of (pairs_of members.now))) }
{
    match text_given(members, Member::EventPattern) {
        Some(text) => Ok(Some(pattern_of(alloc, text)?)),
        None => Ok(None),
    }
}

fn pattern_of(alloc: Global, text: &str) -> Result<SharedPattern, NoMemory>
    requires { IsPattern text.now }
    ensures { IfOk result (λ pattern. pattern ≡ text.now) }
{
    let text = Text::from_str(alloc, text)?;
    match SharedPattern::read(alloc, text) {
        Ok(pattern) => Ok(pattern),
        Err(PatternFault::Refused { .. }) => unreachable!(),
        Err(PatternFault::NoMemory) => Err(NoMemory),
    }
}
