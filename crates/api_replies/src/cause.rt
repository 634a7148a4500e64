//! The causes of refusals: of a request, of an entry and of a target.
ghost use Rattle.std.specs.Prelude.{◌≡◌, ◌++◌, IfOk, OnOk, OnErr};
ghost use Rattle.json_text.specs.View.{pairs_of};
ghost use Rattle.api_replies.specs.Cause.{type_of, message_of, failed_members};

use crate::kind::Kind;
use crate::member::Member;
use json_text::{Json, Members, NoMemory, Text, push_member, push_text};
use std::alloc::Global;

/// Why a request, an entry of a PutEvents or a target of a PutTargets is refused.
#[derive(Debug, Drop)]
pub enum Cause {
    UnknownOperation,
    /// The body is no JSON text of an object within 100 levels.
    NoObject,
    /// A required member is absent or null.
    Required(Member),
    NotValid(Member),
    /// The fault of an event pattern, and the keys to its place, joined by `.`.
    NotAPattern { why: Text, path: Text },
    /// The entries of a PutEvents are too large together.
    TooLargeTogether,
    NotFound { kind: Kind, name: Text },
    Exists { kind: Kind, name: Text },
    LimitReached(Kind),
    /// What is to be deleted is still used: an event bus by a rule, an archive or a running replay; a queue by a target, a
    /// dead-letter setting, a pending delivery or a message.
    InUse { kind: Kind, name: Text },
    /// The rule that is to be deleted has targets.
    HasTargets { name: Text },
    /// The bus `default` is never deleted.
    DefaultBusStays,
    /// A target has more than one of Input, InputPath and InputTransformer.
    MoreThanOneInput,
    /// The destination of a replay is not the bus of its archive.
    OtherDestination,
    /// The range of a replay ends before it begins.
    EmptyRange,
    /// The replay that is to be cancelled is not running.
    NotRunning { name: Text },
    /// The policy of the bus has no statement with this StatementId.
    NoStatement { sid: Text },
    /// The policy of the bus has a statement with this StatementId already.
    StatementExists { sid: Text },
    /// The caller is not the account that owns the buses.
    OwnerOnly,
    /// The fault of a policy, and the place of its statement, counted from 1; 0 if the fault is the whole policy's.
    NotAPolicy { why: Text, place: u64 },
    /// The policy has more than 10,240 bytes, as it was given or as it would be stored.
    PolicyTooLong,
    /// No further entry or delivery can be numbered.
    NumberLimit,
    /// A member of an entry is absent though required, or not valid.
    Parameter(Member),
    MalformedDetail,
    /// The entry's source is one that only AWS may use.
    NotAuthorized,
    /// The statement of this name denies the entry: its Sid, or `#` and its place.
    DeniedBy { statement: Text },
    /// No statement of the bus's policy allows the caller to put the entry.
    NotAllowed,
}

impl Cause {
    /// The type of the error: `__type` of a refusal, `ErrorCode` of a failed entry or target.
    pub fn type_name(&self) -> &'static str
        ensures { result.now ≡ type_of self.now }
    {
        match self {
            Cause::UnknownOperation => "UnknownOperationException",
            Cause::NoObject => "SerializationException",
            Cause::Required(_)
            | Cause::NotValid(_)
            | Cause::TooLargeTogether
            | Cause::InUse { kind: _, name: _ }
            | Cause::HasTargets { name: _ }
            | Cause::DefaultBusStays
            | Cause::MoreThanOneInput
            | Cause::OtherDestination
            | Cause::EmptyRange => "ValidationException",
            Cause::NotRunning { name: _ } => "IllegalStatusException",
            Cause::NotAPattern { why: _, path: _ } => "InvalidEventPatternException",
            Cause::NotFound { kind: _, name: _ } => "ResourceNotFoundException",
            Cause::Exists { kind: _, name: _ } => "ResourceAlreadyExistsException",
            Cause::NoStatement { sid: _ } => "ResourceNotFoundException",
            Cause::StatementExists { sid: _ } => "ResourceAlreadyExistsException",
            Cause::NotAPolicy { why: _, place: _ } => "ValidationException",
            Cause::PolicyTooLong => "PolicyLengthExceededException",
            Cause::LimitReached(_) | Cause::NumberLimit => "LimitExceededException",
            Cause::Parameter(_) => "InvalidArgument",
            Cause::MalformedDetail => "MalformedDetail",
            Cause::NotAuthorized => "NotAuthorizedForSourceException",
            Cause::OwnerOnly | Cause::DeniedBy { statement: _ } | Cause::NotAllowed => {
                "AccessDeniedException"
            }
        }
    }

    /// The message: `message` of a refusal, `ErrorMessage` of a failed entry or target.
    pub fn message(&self, alloc: Global) -> Result<Text, NoMemory>
        ensures { IfOk result (λ t. t ≡ message_of self.now) }
    {
        match self {
            Cause::UnknownOperation => Text::from_str(alloc, "Unknown operation."),
            Cause::NoObject => Text::from_str(alloc, "The body is not a JSON object."),
            Cause::Required(member) => required_message(alloc, *member),
            Cause::NotValid(member) => not_valid_message(alloc, *member),
            Cause::NotAPattern { why, path } => pattern_message(alloc, why.as_str(), path.as_str()),
            Cause::TooLargeTogether => Text::from_str(alloc, "The request is over 262144 bytes."),
            Cause::NotFound { kind, name } => not_found_message(alloc, *kind, name.as_str()),
            Cause::Exists { kind, name } => exists_message(alloc, *kind, name.as_str()),
            Cause::LimitReached(kind) => limit_message(alloc, *kind),
            Cause::InUse { kind, name } => in_use_message(alloc, *kind, name.as_str()),
            Cause::HasTargets { name } => has_targets_message(alloc, name.as_str()),
            Cause::DefaultBusStays => Text::from_str(alloc, "The default bus stays."),
            Cause::MoreThanOneInput => Text::from_str(alloc, "More than one input."),
            Cause::OtherDestination => {
                Text::from_str(alloc, "Destination is not the archive's bus.")
            }
            Cause::EmptyRange => Text::from_str(alloc, "The range is empty."),
            Cause::NotRunning { name } => not_running_message(alloc, name.as_str()),
            Cause::NoStatement { sid } => no_statement_message(alloc, sid.as_str()),
            Cause::StatementExists { sid } => statement_exists_message(alloc, sid.as_str()),
            Cause::OwnerOnly => Text::from_str(alloc, "Only the owner may call this."),
            Cause::NotAPolicy { why, place } => policy_message(alloc, why.as_str(), *place),
            Cause::PolicyTooLong => {
                Text::from_str(alloc, "Policy is not valid. Reason: TooLong at 0")
            }
            Cause::NumberLimit => Text::from_str(alloc, "Number limit 281474976710656 reached."),
            Cause::Parameter(member) => parameter_message(alloc, *member),
            Cause::MalformedDetail => Text::from_str(alloc, "Detail is malformed."),
            Cause::NotAuthorized => Text::from_str(alloc, "Not authorized for the source."),
            Cause::DeniedBy { statement } => denied_message(alloc, statement.as_str()),
            Cause::NotAllowed => Text::from_str(alloc, "No statement allows it."),
        }
    }
}

fn required_message(alloc: Global, member: Member) -> Result<Text, NoMemory>
    ensures { IfOk result (λ t. t ≡ message_of (Cause.Required member)) }
{
    let name = member.name();
    Ok(Text::from(format!(in alloc; "Member {name} is required.")?))
}

fn not_valid_message(alloc: Global, member: Member) -> Result<Text, NoMemory>
    ensures { IfOk result (λ t. t ≡ message_of (Cause.NotValid member)) }
{
    let name = member.name();
    Ok(Text::from(format!(in alloc; "Member {name} is not valid.")?))
}

fn pattern_message(alloc: Global, why: &str, path: &str) -> Result<Text, NoMemory>
    ensures { IfOk result (λ t. t ≡ message_of (Cause.NotAPattern why.now path.now)) }
{
    Ok(Text::from(format!(in alloc; "Event pattern is not valid. Reason: {why} at {path}")?))
}

fn not_found_message(alloc: Global, kind: Kind, name: &str) -> Result<Text, NoMemory>
    ensures { IfOk result (λ t. t ≡ message_of (Cause.NotFound kind name.now)) }
{
    let word = kind.word();
    Ok(Text::from(format!(in alloc; "{word} {name} does not exist.")?))
}

fn exists_message(alloc: Global, kind: Kind, name: &str) -> Result<Text, NoMemory>
    ensures { IfOk result (λ t. t ≡ message_of (Cause.Exists kind name.now)) }
{
    let word = kind.word();
    Ok(Text::from(format!(in alloc; "{word} {name} already exists.")?))
}

fn in_use_message(alloc: Global, kind: Kind, name: &str) -> Result<Text, NoMemory>
    ensures { IfOk result (λ t. t ≡ message_of (Cause.InUse kind name.now)) }
{
    let word = kind.word();
    Ok(Text::from(format!(in alloc; "{word} {name} is in use.")?))
}

fn has_targets_message(alloc: Global, name: &str) -> Result<Text, NoMemory>
    ensures { IfOk result (λ t. t ≡ message_of (Cause.HasTargets name.now)) }
{
    Ok(Text::from(format!(in alloc; "Rule {name} has targets.")?))
}

fn not_running_message(alloc: Global, name: &str) -> Result<Text, NoMemory>
    ensures { IfOk result (λ t. t ≡ message_of (Cause.NotRunning name.now)) }
{
    Ok(Text::from(format!(in alloc; "Replay {name} is not running.")?))
}

fn no_statement_message(alloc: Global, sid: &str) -> Result<Text, NoMemory>
    ensures { IfOk result (λ t. t ≡ message_of (Cause.NoStatement sid.now)) }
{
    Ok(Text::from(format!(in alloc; "Statement {sid} does not exist.")?))
}

fn statement_exists_message(alloc: Global, sid: &str) -> Result<Text, NoMemory>
    ensures { IfOk result (λ t. t ≡ message_of (Cause.StatementExists sid.now)) }
{
    Ok(Text::from(format!(in alloc; "Statement {sid} already exists.")?))
}

fn policy_message(alloc: Global, why: &str, place: u64) -> Result<Text, NoMemory>
    ensures { IfOk result (λ t. t ≡ message_of (Cause.NotAPolicy why.now place)) }
{
    Ok(Text::from(format!(in alloc; "Policy is not valid. Reason: {why} at {place}")?))
}

fn denied_message(alloc: Global, statement: &str) -> Result<Text, NoMemory>
    ensures { IfOk result (λ t. t ≡ message_of (Cause.DeniedBy statement.now)) }
{
    Ok(Text::from(format!(in alloc; "Denied by statement {statement}.")?))
}

fn limit_message(alloc: Global, kind: Kind) -> Result<Text, NoMemory>
    ensures { IfOk result (λ t. t ≡ message_of (Cause.LimitReached kind)) }
{
    let word = kind.word();
    let limit = kind.limit();
    Ok(Text::from(format!(in alloc; "{word} limit {limit} reached.")?))
}

fn parameter_message(alloc: Global, member: Member) -> Result<Text, NoMemory>
    ensures { IfOk result (λ t. t ≡ message_of (Cause.Parameter member)) }
{
    let name = member.name();
    Ok(Text::from(format!(in alloc; "Parameter {name} is not valid.")?))
}

/// Adds the members `ErrorCode` and `ErrorMessage` of a failed entry or target, at the end. After an `Err` the members are as before.
pub fn push_failure(alloc: Global, members: &mut Members, cause: &Cause) -> Result<(), NoMemory>
    ensures pushed { OnOk result (pairs_of members.new.items ≡ pairs_of members.old.items ++ failed_members cause.now) }
    ensures unchanged { OnErr result (members.new.items ≡ members.old.items) }
{
    let mut failure: Members = Vec::with_capacity(alloc, 2)?;
    push_text(alloc, &mut failure, "ErrorCode", cause.type_name())?;
    let message = cause.message(alloc)?;
    push_member(alloc, &mut failure, "ErrorMessage", Json::Str(message))?;
    members.append(&mut failure)?;
    Ok(())
}
