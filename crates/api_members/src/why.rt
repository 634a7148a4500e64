//! The names of the reasons why a text is no event pattern or no policy.
ghost use Rattle.std.specs.Prelude.{◌≡◌};
ghost use Rattle.api_members.specs.Why.{why_name, policy_why_name};

use bus_policy::PolicyCause;
use pattern_read::Why;

/// The name of the reason why a text is no pattern, as a message has it.
pub(crate) fn why_name(why: Why) -> &'static str
    ensures { result.now ≡ why_name why }
{
    match why {
        Why::TooLong => "TooLong",
        Why::NotJson => "NotJson",
        Why::TooDeep => "TooDeep",
        Why::KeyTwice => "KeyTwice",
        Why::NotObject => "NotObject",
        Why::EmptyObject => "EmptyObject",
        Why::EmptyArray => "EmptyArray",
        Why::BadId => "BadId",
        Why::BadOr => "BadOr",
        Why::UnknownTest => "UnknownTest",
        Why::BadOperand => "BadOperand",
        Why::BadNumeric => "BadNumeric",
        Why::BadCidr => "BadCidr",
        Why::BadWildcard => "BadWildcard",
        Why::TooMany => "TooMany",
    }
}

/// The name of the reason why a text is no policy, as a message has it.
pub(crate) fn policy_why_name(why: PolicyCause) -> &'static str
    ensures { result.now ≡ policy_why_name why }
{
    match why {
        PolicyCause::TooLong => "TooLong",
        PolicyCause::NotJson => "NotJson",
        PolicyCause::TooDeep => "TooDeep",
        PolicyCause::KeyTwice => "KeyTwice",
        PolicyCause::NotObject => "NotObject",
        PolicyCause::BadVersion => "BadVersion",
        PolicyCause::BadSid => "BadSid",
        PolicyCause::BadEffect => "BadEffect",
        PolicyCause::BadPrincipal => "BadPrincipal",
        PolicyCause::BadAction => "BadAction",
        PolicyCause::BadResource => "BadResource",
        PolicyCause::BadCondition => "BadCondition",
        PolicyCause::UnknownMember => "UnknownMember",
    }
}
