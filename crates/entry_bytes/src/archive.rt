//! Changes of archives as bytes.
ghost use Rattle.std.specs.Prelude.{◌≡◌, ◌++◌, length, take, IfOk, OnOk, OnErr, MatchResult};
ghost use Rattle.std.specs.Option.{option_map};
ghost use Rattle.rule_table.specs.Control.{archive_created, archive_updated};
ghost use Rattle.rule_table.specs.View.{control_of};
ghost use Rattle.rule_table.specs.WellFormed.{IsNoneOrPattern, IsSpelled};
ghost use Rattle.entry_bytes.specs.Change.{change_bytes, IsChange};
ghost use Rattle.entry_bytes.specs.Reading.{Blames, Finds, Gives};
ghost use Rattle.entry_bytes.specs.TargetReading.{archive_of, update_of};
ghost use Rattle.entry_bytes.specs.ChangeReading.{archive_created_at, archive_updated_at};

use crate::change::{put_name, put_names, read_pattern};
use crate::fault::ReadFault;
use crate::numbers::{put_u32, take_u32};
use crate::texts::{put_optional_text, take_optional_str, take_str};
use json_text::{Bytes, NoMemory, Text};
use pattern_read::SharedPattern;
use rule_table::Control;
use std::alloc::Global;

pub(crate) fn put_archive(
    name: &Text,
    bus: &Text,
    pattern: &Option<SharedPattern>,
    days: u32,
    out: &mut Bytes,
) -> Result<(), NoMemory>
    ensures bytes { OnOk result (out.new ≡ out.old ++ change_bytes (archive_created name.now bus.now pattern.now days)) }
    ensures fits { OnOk result (IsChange (archive_created name.now bus.now pattern.now days)) }
    ensures err { OnErr result (take (length out.old) out.new ≡ out.old) }
{
    put_names(11, name, bus, out)?;
    put_optional_text(text_of(pattern), out)?;
    put_u32(days, out)
}

pub(crate) fn put_update(
    name: &Text,
    pattern: &Option<SharedPattern>,
    days: u32,
    out: &mut Bytes,
) -> Result<(), NoMemory>
    ensures bytes { OnOk result (out.new ≡ out.old ++ change_bytes (archive_updated name.now pattern.now days)) }
    ensures fits { OnOk result (IsChange (archive_updated name.now pattern.now days)) }
    ensures err { OnErr result (take (length out.old) out.new ≡ out.old) }
{
    put_name(12, name, out)?;
    put_optional_text(text_of(pattern), out)?;
    put_u32(days, out)
}

fn text_of(pattern: &Option<SharedPattern>) -> Option<&str>
    ensures { option_map (λ t. t.now) result ≡ pattern.now }
{
    match pattern {
        Some(pattern) => Some(pattern.pattern().text().as_str()),
        None => None,
    }
}

/// The fields of an archive that is created. Its pattern may be none.
#[derive(Clone, Copy)]
pub(crate) struct ArchiveParts<'a> {
    pub name: &'a str,
    pub bus: &'a str,
    pub pattern: Option<&'a str>,
    pub days: u32,
}

pub(crate) fn take_archive_created(
    alloc: Global,
    bytes: &[u8],
) -> Result<(Control, &[u8]), ReadFault>
    ensures { Finds (λ x. (control_of x.0, x.1.now)) IsSpelled result (archive_created_at bytes.now) }
{
    match take_archive_parts(bytes) {
        Ok((parts, rest)) => match made_archive(alloc, parts) {
            Ok(control) => Ok((control, rest)),
            Err(fault) => Err(fault),
        },
        Err(fault) => Err(fault),
    }
}

#[tactic(auto, unfolding(crate::specs::ChangeReading::archive_created_at))]
fn take_archive_parts(bytes: &[u8]) -> Result<(ArchiveParts<'_>, &[u8]), ReadFault>
    ensures { Gives (λ x. (archive_of x.0, x.1.now)) result (archive_created_at bytes.now) }
{
    let (name, rest) = take_str(bytes)?;
    let (bus, rest) = take_str(rest)?;
    let (pattern, rest) = take_optional_str(rest)?;
    let (days, rest) = take_u32(rest)?;
    let parts = ArchiveParts {
        name,
        bus,
        pattern,
        days,
    };
    Ok((parts, rest))
}

/// The change with these fields. Refused if the pattern is no pattern.
fn made_archive(alloc: Global, parts: ArchiveParts<'_>) -> Result<Control, ReadFault>
    ensures { MatchResult result
        (λ control. (control_of control ≡ archive_of parts.entry) × IsSpelled (archive_of parts.entry))
        (Blames (¬ IsSpelled (archive_of parts.entry))) }
{
    let name = Text::from_str(alloc, parts.name)?;
    let bus = Text::from_str(alloc, parts.bus)?;
    let pattern = read_optional_pattern(alloc, parts.pattern)?;
    Ok(Control::ArchiveCreated {
        name,
        bus,
        pattern,
        days: parts.days,
    })
}

/// The fields that an archive gets. Its pattern may be none.
#[derive(Clone, Copy)]
pub(crate) struct UpdateParts<'a> {
    pub name: &'a str,
    pub pattern: Option<&'a str>,
    pub days: u32,
}

pub(crate) fn take_archive_updated(
    alloc: Global,
    bytes: &[u8],
) -> Result<(Control, &[u8]), ReadFault>
    ensures { Finds (λ x. (control_of x.0, x.1.now)) IsSpelled result (archive_updated_at bytes.now) }
{
    match take_update_parts(bytes) {
        Ok((parts, rest)) => match made_update(alloc, parts) {
            Ok(control) => Ok((control, rest)),
            Err(fault) => Err(fault),
        },
        Err(fault) => Err(fault),
    }
}

#[tactic(auto, unfolding(crate::specs::ChangeReading::archive_updated_at))]
fn take_update_parts(bytes: &[u8]) -> Result<(UpdateParts<'_>, &[u8]), ReadFault>
    ensures { Gives (λ x. (update_of x.0, x.1.now)) result (archive_updated_at bytes.now) }
{
    let (name, rest) = take_str(bytes)?;
    let (pattern, rest) = take_optional_str(rest)?;
    let (days, rest) = take_u32(rest)?;
    let parts = UpdateParts {
        name,
        pattern,
        days,
    };
    Ok((parts, rest))
}

/// The change with these fields. Refused if the pattern is no pattern.
fn made_update(alloc: Global, parts: UpdateParts<'_>) -> Result<Control, ReadFault>
    ensures { MatchResult result
        (λ control. (control_of control ≡ update_of parts.entry) × IsSpelled (update_of parts.entry))
        (Blames (¬ IsSpelled (update_of parts.entry))) }
{
    let name = Text::from_str(alloc, parts.name)?;
    let pattern = read_optional_pattern(alloc, parts.pattern)?;
    Ok(Control::ArchiveUpdated {
        name,
        pattern,
        days: parts.days,
    })
}

/// The pattern of the text, if there is a text.
fn read_optional_pattern(
    alloc: Global,
    text: Option<&str>,
) -> Result<Option<SharedPattern>, ReadFault>
    ensures { MatchResult result
        (λ p. (p ≡ option_map (λ t. t.now) text.entry) × IsNoneOrPattern (option_map (λ t. t.now) text.entry))
        (Blames (¬ IsNoneOrPattern (option_map (λ t. t.now) text.entry))) }
{
    match text {
        Some(text) => match read_pattern(alloc, text) {
            Ok(pattern) => Ok(Some(pattern)),
            Err(fault) => Err(fault),
        },
        None => Ok(None),
    }
}
