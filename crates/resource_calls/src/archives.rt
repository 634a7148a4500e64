//! Calls on archives.
ghost use Rattle.std.specs.Prelude.{◌≡◌, IfOk, ℕ, unwrap_or};
ghost use Rattle.rule_table.specs.Control.{archive_created, archive_updated, archive_deleted};
ghost use Rattle.rule_table.specs.View.{control_of};
ghost use Rattle.rule_table.specs.WellFormed.{IsWellFormed, IsNoneOrPattern};
ghost use Rattle.config_views.specs.Archives.{archive_reply};
ghost use Rattle.std.specs.Option.{option_copied, option_or};
ghost use Rattle.router_core.specs.Tables.{Tables as TablesView};
ghost use Rattle.event_shape.specs.Names.{IsArchiveName};
ghost use Rattle.call_replies.specs.Replies.{empty_reply};
ghost use Rattle.api_replies.specs.declared.kind.Kind.TheVariants as kind_is;
ghost use Rattle.api_replies.specs.declared.cause.Cause.TheVariants as cause_is;
ghost use Rattle.resource_calls.specs.Decision.{controlled, archive_update, refusal};
ghost use Rattle.resource_calls.specs.Decided.{decided_of, CanBeMade};

use crate::changes::configure;
use crate::decided::{Decided, refused};
use crate::tables::read_tables;
use call_replies::empty_reply;
use config_views::archive_reply;
use json_text::{NoMemory, Text};
use pattern_read::SharedPattern;
use router_core::{Cause, Kind, Tables};
use rule_table::{ArchiveRow, Control};
use std::alloc::Global;

/// Creates the archive at the moment.
pub fn create_archive(
    alloc: Global,
    tables: &Tables,
    moment: u64,
    name: &Text,
    bus: &Text,
    pattern: &Option<SharedPattern>,
    days: u32,
) -> Result<Decided, NoMemory>
    requires form { IsWellFormed (archive_created name.now bus.now pattern.now days) }
    ensures answer { IfOk result (λ d. decided_of d ≡ controlled tables.now.set (archive_created name.now bus.now pattern.now days)
        (archive_reply name.now moment)) }
    ensures made { IfOk result (λ d. CanBeMade tables.now moment d) }
{
    let reply = archive_reply(alloc, name.as_str(), moment)?;
    let control = archive_created(alloc, name, bus, pattern, days)?;
    configure(alloc, tables, moment, control, reply)
}

/// The change that creates the archive.
fn archive_created(
    alloc: Global,
    name: &Text,
    bus: &Text,
    pattern: &Option<SharedPattern>,
    days: u32,
) -> Result<Control, NoMemory>
    ensures { IfOk result (λ control. control_of control ≡ archive_created name.now bus.now pattern.now days) }
{
    Ok(Control::ArchiveCreated {
        name: name.copy(alloc)?,
        bus: bus.copy(alloc)?,
        pattern: share_pattern(pattern)?,
        days,
    })
}

fn share_pattern(pattern: &Option<SharedPattern>) -> Result<Option<SharedPattern>, NoMemory>
    ensures { IfOk result (λ same. same ≡ pattern.now) }
{
    match pattern {
        Some(pattern) => Ok(Some(pattern.share()?)),
        None => Ok(None),
    }
}

/// Gives the archive the pattern and the days that are given. Those that are not given stay as they are.
pub fn update_archive(
    alloc: Global,
    tables: &Tables,
    moment: u64,
    name: &Text,
    pattern: &Option<SharedPattern>,
    days: Option<u32>,
) -> Result<Decided, NoMemory>
    requires form { IsWellFormed (archive_updated name.now pattern.now (unwrap_or days 0)) }
    ensures answer { IfOk result (λ d. decided_of d ≡ archive_update tables.now name.now pattern.now days) }
    ensures made { IfOk result (λ d. CanBeMade tables.now moment d) }
{
    read_tables(tables);
    match tables.set().archive(name.as_str()) {
        Some(row) => match tables.archives().find(name.as_str()) {
            Some(archive) => {
                let pattern = pattern_after(pattern, row);
                let days = days.unwrap_or(archive.days());
                let control = archive_updated(alloc, name, pattern, days)?;
                let reply = archive_reply(alloc, name.as_str(), archive.created())?;
                configure(alloc, tables, moment, control, reply)
            }
            None => no_archive(alloc, name),
        },
        None => no_archive(alloc, name),
    }
}

/// The pattern that is given, else that of the archive.
fn pattern_after<'a>(
    given: &'a Option<SharedPattern>,
    row: &'a ArchiveRow,
) -> Option<&'a SharedPattern>
    ensures after { option_copied result ≡ option_or given.now row.now.pattern }
    ensures spelled { IsNoneOrPattern row.now.pattern }
{
    let own = own_pattern(row);
    match given {
        Some(pattern) => Some(pattern),
        None => own,
    }
}

fn own_pattern(row: &ArchiveRow) -> Option<&SharedPattern>
    ensures own { option_copied result ≡ row.now.pattern }
    ensures spelled { IsNoneOrPattern row.now.pattern }
{
    match row.pattern() {
        Some(pattern) => {
            // Read for its contract: the text is a pattern's.
            let _meaning = pattern.pattern().pattern();
            Some(pattern)
        }
        None => None,
    }
}

/// The change that gives the archive this pattern, or none, and these days.
fn archive_updated(
    alloc: Global,
    name: &Text,
    pattern: Option<&SharedPattern>,
    days: u32,
) -> Result<Control, NoMemory>
    ensures { IfOk result (λ control. control_of control ≡ archive_updated name.now (option_copied pattern.entry) days) }
{
    let name = name.copy(alloc)?;
    let pattern = match pattern {
        Some(pattern) => Some(pattern.share()?),
        None => None,
    };
    Ok(Control::ArchiveUpdated {
        name,
        pattern,
        days,
    })
}

/// The refusal that the archive does not exist.
pub(crate) fn no_archive(alloc: Global, name: &Text) -> Result<Decided, NoMemory>
    ensures answer { IfOk result (λ d. decided_of d ≡ refusal (cause_is.NotFound kind_is.Archive name.now)) }
    ensures made { IfOk result (λ d. (t : TablesView) (moment : ℕ) → CanBeMade t moment d) }
{
    let name = name.copy(alloc)?;
    let kind = Kind::Archive;
    refused(alloc, &Cause::NotFound { kind, name })
}

pub fn delete_archive(
    alloc: Global,
    tables: &Tables,
    moment: u64,
    name: &Text,
) -> Result<Decided, NoMemory>
    requires archive { IsArchiveName name.now }
    ensures answer { IfOk result (λ d. decided_of d ≡ controlled tables.now.set (archive_deleted name.now) empty_reply) }
    ensures made { IfOk result (λ d. CanBeMade tables.now moment d) }
{
    let control = Control::ArchiveDeleted {
        name: name.copy(alloc)?,
    };
    configure(alloc, tables, moment, control, empty_reply(alloc))
}
