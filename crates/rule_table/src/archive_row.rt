//! What matching has to know of archives.
ghost use Rattle.std.specs.Prelude.{◌≡◌, Some, IfOk};
ghost use Rattle.std.specs.Option.{option_copied};
ghost use Rattle.rule_table.specs.Refusal.{keeps_pattern};

use json_text::{NoMemory, Text};
use name_rows::Row;
use pattern_read::SharedPattern;
use shared_text::SharedText;
use std::alloc::Global;
use std::marker::Model;

/// An archive of a bus, without its events.
#[derive(Debug, Drop)]
pub struct ArchiveRow {
    pub(crate) name: SharedText,
    pub(crate) bus: SharedText,
    pub(crate) pattern: Option<SharedPattern>,
    pub(crate) made: u64,
}

impl Model for ArchiveRow {
    ghost use Rattle.rule_table.specs.RuleSet.{Archive as View};

    ghost Value = { View };

    ghost view = { λ a. record { name = a.name; bus = a.bus; pattern = a.pattern; made = a.made } };
}

impl Row for ArchiveRow {
    ghost name_of = { λ archive. archive.name };

    fn row_name(&self) -> &str {
        self.name()
    }
}

impl ArchiveRow {
    /// An archive that the change of this number creates.
    pub(crate) fn new(
        alloc: Global,
        name: &Text,
        bus: &Text,
        pattern: &Option<SharedPattern>,
        made: u64,
    ) -> Result<ArchiveRow, NoMemory>
        ensures { IfOk result (λ archive. archive ≡ record { name = name.now; bus = bus.now; pattern = pattern.now; made = made }) }
    {
        let name = SharedText::new(alloc, name.copy(alloc)?)?;
        let bus = SharedText::new(alloc, bus.copy(alloc)?)?;
        let pattern = share_pattern(pattern)?;
        Ok(ArchiveRow {
            name,
            bus,
            pattern,
            made,
        })
    }

    pub fn name(&self) -> &str
        ensures { result.now ≡ self.now.name }
    {
        self.name.as_str()
    }

    /// The name, which others may share.
    pub fn share_name(&self) -> Result<SharedText, NoMemory>
        ensures { IfOk result (λ name. name ≡ self.now.name) }
    {
        self.name.share()
    }

    /// The name of its bus.
    pub fn bus(&self) -> &str
        ensures { result.now ≡ self.now.bus }
    {
        self.bus.as_str()
    }

    /// The pattern, if it has one. Without one it keeps each event of its bus.
    pub fn pattern(&self) -> Option<&SharedPattern>
        ensures { option_copied result ≡ self.now.pattern }
    {
        self.pattern.as_ref()
    }

    /// The configuration version after its creation.
    pub fn made(&self) -> u64
        ensures { result ≡ self.now.made }
    {
        self.made
    }

    /// Whether an update to this pattern, or to none, leaves the archive with a pattern if it has one.
    pub(crate) fn keeps_pattern(&self, pattern: &Option<SharedPattern>) -> bool
        ensures { result ≡ keeps_pattern pattern.now (Some self.now) }
    {
        if pattern.is_some() {
            true
        } else {
            !self.pattern.is_some()
        }
    }

    /// The archive with this pattern, or without one.
    pub(crate) fn with_pattern(
        &self,
        pattern: &Option<SharedPattern>,
    ) -> Result<ArchiveRow, NoMemory>
        ensures { IfOk result (λ archive. archive ≡ record self.now { pattern = pattern.now }) }
    {
        let name = self.name.share()?;
        let bus = self.bus.share()?;
        let pattern = share_pattern(pattern)?;
        Ok(ArchiveRow {
            name,
            bus,
            pattern,
            made: self.made,
        })
    }
}

/// The same pattern, if there is one.
fn share_pattern(pattern: &Option<SharedPattern>) -> Result<Option<SharedPattern>, NoMemory>
    ensures { IfOk result (λ same. same ≡ pattern.now) }
{
    match pattern {
        Some(pattern) => Ok(Some(pattern.share()?)),
        None => Ok(None),
    }
}
