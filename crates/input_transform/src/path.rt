//! Paths into a JSON value.
ghost use Rattle.std.specs.Prelude.{◌≡◌, List, IfOk, MatchResult};
ghost use Rattle.std.specs.Option.{option_map, option_copied};
ghost use Rattle.json_text.specs.View.{tree_of};
ghost use Rattle.input_transform.specs.Path.{IsPath, found_at, step_in};
ghost use Rattle.input_transform.specs.declared.path.Step.{Step as PathStep};

use super::PathFault;
use super::path_text::read_steps;
use json_text::{Json, NoMemory, Text};
use std::alloc::Global;
use std::marker::Model;

/// A step of a path: the member with this name, or the item at this place, from 0.
#[derive(Debug, Drop)]
pub enum Step {
    Name(Text),
    Place(u32),
}

/// A path into a JSON value: `$`, and then `.name` and `[number]` steps. Contracts see its steps.
#[derive(Debug, Drop)]
pub struct JsonPath {
    steps: Vec<Step>,
}

impl Model for JsonPath {
    ghost use Rattle.std.specs.Prelude.{List};
    ghost use Rattle.input_transform.specs.declared.path.Step.{Step as PathStep};

    ghost Value = { List PathStep };

    ghost view = { λ p. p.steps.items };
}

impl JsonPath {
    /// The path that the text writes: `$`, and then steps. A step is `.` and at least one of `A-Z a-z 0-9 _ -`, or `[n]` with a
    /// decimal number below 2^31 without leading zeros. The text has no limit of length. `NotPath` if it is no path.
    pub fn read(alloc: Global, text: &str) -> Result<JsonPath, PathFault>
        ensures found { IfOk result (λ p. IsPath text.now p) }
        ensures only { (steps : List PathStep) → IsPath text.now steps
            → MatchResult result (λ p. p ≡ steps) (λ e. e ≡ PathFault.NoMemory) }
    {
        match text.as_bytes() {
            [b'$', rest @ ..] => {
                let steps = read_steps(alloc, rest)?;
                Ok(JsonPath { steps })
            }
            _ => Err(PathFault::NotPath),
        }
    }

    /// What the path finds in the value. `None` if a step finds nothing: a name finds a member of an object alone, a number an
    /// item of a list alone. Allocates nothing.
    pub fn at<'a>(&self, json: &'a Json) -> Option<&'a Json>
        ensures { option_map tree_of (option_copied result) ≡ found_at self.now (tree_of json.now) }
    {
        let mut here = json;
        for step in &self.steps {
            match step_in(step, here) {
                Some(next) => here = next,
                None => return None,
            }
        }
        Some(here)
    }

    /// A copy of the path, in memory of its own.
    pub fn copy(&self, alloc: Global) -> Result<JsonPath, NoMemory>
        ensures { IfOk result (λ p. p ≡ self.now) }
    {
        let mut steps = Vec::with_capacity(alloc, self.steps.len())?;
        for step in &self.steps {
            steps.push(copy_step(alloc, step)?)?;
        }
        Ok(JsonPath { steps })
    }
}

fn copy_step(alloc: Global, step: &Step) -> Result<Step, NoMemory>
    ensures { IfOk result (λ s. s ≡ step.now) }
{
    match step {
        Step::Name(name) => Ok(Step::Name(name.copy(alloc)?)),
        Step::Place(place) => Ok(Step::Place(*place)),
    }
}

/// What the step finds in the value.
fn step_in<'a>(step: &Step, json: &'a Json) -> Option<&'a Json>
    ensures { option_map tree_of (option_copied result) ≡ step_in step.now (tree_of json.now) }
{
    match step {
        Step::Name(name) => json.member(name.as_str()),
        Step::Place(place) => match json {
            Json::List(items) => items.get(*place as usize),
            Json::Null | Json::Truth(_) | Json::Num(_) | Json::Str(_) | Json::Obj(_) => None,
        },
    }
}
