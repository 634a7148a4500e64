//! The duties of an event: what each of its targets gets.
ghost use Rattle.std.specs.Prelude.{◌≡◌, ◌<◌, ℕ, List, Some, IfOk, length};
ghost use Rattle.std.specs.Option.{option_copied};
ghost use Rattle.json_text.specs.Moment.{IsMoment};
ghost use Rattle.json_text.specs.Limits.{most_text};
ghost use Rattle.json_text.specs.Tree.{Tree};
ghost use Rattle.json_text.specs.View.{tree_of};
ghost use Rattle.json_text.specs.Compact.{compact_text, IsValue};
ghost use Rattle.event_time.specs.Time.{IsIso};
ghost use Rattle.input_transform.specs.Fills.{input_text};
ghost use Rattle.router_requests.specs.Duties.{any_needs_tree, needs_tree, AreDuties, HasTree, IsDutyOf, IsInputSent, IsSentOf, IsTreeOf};

use crate::seen::{SeenTarget, SeenTargets};
use delivery_duties::NewDuty;
use input_transform::{FillFault, Input, fill_tree};
use json_text::{Json, NoMemory, Text};
use rule_targets::{GivenInput, SharedInput};
use shared_text::SharedText;
use std::alloc::Global;
use std::sync::Arc;

/// The greatest number of bytes that a target accepts.
const TEXT_LIMIT: usize = 1_048_576;

/// Whether one of the targets has a path or a template. Then `duties_of` needs the event's tree.
pub fn need_tree(targets: &SeenTargets) -> bool
    ensures { result ≡ any_needs_tree targets.now.items }
{
    targets.iter().any(|seen| needs_tree(&seen.input))
}

fn needs_tree(input: &Option<SharedInput>) -> bool
    ensures { result ≡ needs_tree input.now }
{
    match input {
        Some(input) => match input.given() {
            GivenInput::Input(_) => false,
            GivenInput::InputPath(_) | GivenInput::InputTransformer(_) => true,
        },
        None => false,
    }
}

/// What is sent of a text.
#[derive(Drop)]
struct Sent {
    /// The text, or `{}` if it is too long.
    text: SharedText,
    too_long: bool,
}

impl Sent {
    /// What is sent of this text.
    fn new(alloc: Global, text: SharedText) -> Result<Sent, NoMemory>
        ensures { IfOk result (λ sent. IsSentOf text sent) }
    {
        if text.as_str().len() > TEXT_LIMIT {
            return Sent::too_long(alloc);
        }
        Ok(Sent {
            text,
            too_long: false,
        })
    }

    /// What is sent of a text that is too long.
    fn too_long(alloc: Global) -> Result<Sent, NoMemory>
        ensures { IfOk result (λ sent. (t : List ℕ) → most_text < length t → IsSentOf t sent) }
    {
        Ok(Sent {
            text: SharedText::new(alloc, Text::from_str(alloc, "{}")?)?,
            too_long: true,
        })
    }

    /// Another pointer to the same text.
    fn share(&self) -> Result<Sent, NoMemory>
        ensures { IfOk result (λ sent. sent ≡ self.now) }
    {
        Ok(Sent {
            text: self.text.share()?,
            too_long: self.too_long,
        })
    }
}

/// One duty for each target, in their order. A target without an input gets the event's text, and one with an Input that text; no
/// such text is copied. A path or a template is filled from the event's tree, at the moment of the batch; `tree` may be absent if no
/// target needs it. If a text has more than 1,048,576 bytes, its duty has the text `{}` instead and is marked too long.
pub fn duties_of(
    alloc: Global,
    mut targets: SeenTargets,
    text: &SharedText,
    tree: Option<&Json>,
    moment: u64,
) -> Result<Vec<NewDuty>, NoMemory>
    requires moment { IsMoment moment }
    requires tree { HasTree (any_needs_tree targets.items) (option_copied tree) }
    ensures { IfOk result (λ duties. (event : Tree) (time : List ℕ) → text.now ≡ compact_text event
        → IsTreeOf event (option_copied tree.entry) → IsIso moment time → AreDuties event time targets.items duties.items) }
{
    let whole = Sent::new(alloc, text.share()?)?;
    let mut duties = Vec::with_capacity(alloc, targets.len())?;
    while let Some(seen) = targets.pop_front() {
        duties.push(duty_of(alloc, seen, &whole, tree, moment)?)?;
    }
    Ok(duties)
}

/// The duty of one target. `whole` is what is sent of the event's text.
fn duty_of(
    alloc: Global,
    seen: SeenTarget,
    whole: &Sent,
    tree: Option<&Json>,
    moment: u64,
) -> Result<NewDuty, NoMemory>
    requires moment { IsMoment moment }
    requires tree { HasTree (needs_tree seen.input) (option_copied tree) }
    ensures { IfOk result (λ duty. (event : Tree) (time : List ℕ) → IsSentOf (compact_text event) whole.now
        → IsTreeOf event (option_copied tree.entry) → IsIso moment time → IsDutyOf event time seen duty) }
{
    let SeenTarget { row, input } = seen;
    let arn = row.rule_arn();
    let sent = match &input {
        Some(input) => sent_to(alloc, input, tree, arn, moment)?,
        None => whole.share()?,
    };
    let Sent { text, too_long } = sent;
    Ok(NewDuty {
        target: row,
        text,
        too_long,
    })
}

/// What is sent to a target with this input.
fn sent_to(
    alloc: Global,
    input: &SharedInput,
    tree: Option<&Json>,
    rule_arn: &str,
    moment: u64,
) -> Result<Sent, NoMemory>
    requires moment { IsMoment moment }
    requires tree { HasTree (needs_tree (Some input.now)) (option_copied tree) }
    ensures { IfOk result (λ sent. (event : Tree) (time : List ℕ) → IsTreeOf event (option_copied tree.entry) → IsIso moment time
        → IsInputSent (record { event = event; rule_arn = rule_arn.now; time = time }) input.now sent) }
{
    let read = input.input();
    match read {
        Input::Fixed(text) => Sent::new(alloc, SharedText::from_arc(Arc::try_clone(text)?)),
        Input::Whole | Input::Path(_) | Input::Transform(_) => match tree {
            Some(tree) => sent_filled(alloc, read, tree, rule_arn, moment),
            None => unreachable!(),
        },
    }
}

/// What is sent of the text that is filled from the event's tree.
fn sent_filled(
    alloc: Global,
    input: &Input,
    tree: &Json,
    rule_arn: &str,
    moment: u64,
) -> Result<Sent, NoMemory>
    requires moment { IsMoment moment }
    requires value { IsValue (tree_of tree.now) }
    ensures { IfOk result (λ sent. (time : List ℕ) → IsIso moment time
        → IsSentOf (input_text (record { event = tree_of tree.now; rule_arn = rule_arn.now; time = time }) input.now) sent) }
{
    match fill_tree(alloc, input, tree, rule_arn, moment) {
        Ok(text) => Ok(Sent {
            text: SharedText::new(alloc, text)?,
            too_long: false,
        }),
        Err(FillFault::TooLong) => Sent::too_long(alloc),
        Err(FillFault::NoMemory) => Err(NoMemory),
    }
}
