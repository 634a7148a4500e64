//! One rule of a bus is entered, or removed.
ghost use Rattle.std.specs.Prelude.{◌≡◌, ◌≤◌, ◌<◌, [], None, Some, IfOk};
ghost use Rattle.board_publish.specs.Entered.{entered_as};
ghost use Rattle.board_publish.specs.Matchers.{Enters};

use crate::entered::Entered;
use crate::matcher::Matcher;
use crate::numbers::free_number;
use json_text::{NoMemory, Text};
use name_rows::Rows;
use pattern_read::SharedPattern;
use rule_automaton::Automaton;
use std::alloc::Global;

impl Matcher {
    /// No rule is entered.
    pub(crate) fn none(alloc: Global, bus: &str) -> Result<Matcher, NoMemory>
        ensures bus { IfOk result (λ matcher. matcher.bus ≡ bus.now) }
        ensures empty { IfOk result (λ matcher. matcher.entered ≡ []) }
    {
        let bus = Text::from_str(alloc, bus)?;
        let automaton = Automaton::build(alloc, &[])?;
        let entered = Rows::new(alloc)?;
        Ok(Matcher {
            bus,
            automaton,
            entered,
            places: 0,
        })
    }

    /// The rule of this name, which is not entered, is entered with this pattern.
    pub(crate) fn with(
        &self,
        alloc: Global,
        name: &str,
        pattern: &SharedPattern,
    ) -> Result<Matcher, NoMemory>
        requires { entered_as name.now self.now.entered ≡ None }
        ensures { IfOk result (λ matcher. Enters self.now matcher name.now (Some pattern.now)) }
    {
        let number = free_number(alloc, &self.entered, self.places)?;
        let places = with_place(self.places, number)?;
        let bus = self.bus.copy(alloc)?;
        let name = Text::from_str(alloc, name)?;
        let automaton = self.automaton.with(alloc, number, pattern)?;
        let entered = self.entered.with(alloc, Entered { name, number })?;
        Ok(Matcher {
            bus,
            automaton,
            entered,
            places,
        })
    }

    /// This rule, which is entered, is removed.
    pub(crate) fn without(&self, alloc: Global, rule: &Entered) -> Result<Matcher, NoMemory>
        requires { entered_as rule.now.name self.now.entered ≡ Some rule.now }
        ensures { IfOk result (λ matcher. Enters self.now matcher rule.now.name None) }
    {
        let bus = self.bus.copy(alloc)?;
        let automaton = self.automaton.without(alloc, rule.number)?;
        let entered = self.entered.without(alloc, rule.name.as_str())?;
        Ok(Matcher {
            bus,
            automaton,
            entered,
            places: self.places,
        })
    }
}

/// At least this many places, of which one has this number. As many rules as there are numbers do not fit into memory.
pub(crate) fn with_place(places: u32, number: u32) -> Result<u32, NoMemory>
    ensures { IfOk result (λ more. (places ≤ more) × (number < more)) }
{
    match number.checked_add(1) {
        Some(more) => Ok(places.max(more)),
        None => Err(NoMemory),
    }
}
