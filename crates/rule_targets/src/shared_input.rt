//! Inputs of targets that several values share.
ghost use Rattle.std.specs.Prelude.{◌≡◌, IfOk, MatchOption};
ghost use Rattle.rule_targets.specs.Input.{IsValidInput, IsNoneOrValid, IsReadOf};

use crate::given::GivenInput;
use crate::reading::read_input;
use input_transform::Input;
use json_text::NoMemory;
use std::alloc::Global;
use std::marker::Model;
use std::sync::Arc;

/// An input as it was given, with what was read of it.
#[derive(Debug, Drop)]
struct ReadInput {
    given: GivenInput,
    read: Input,
}

/// A pointer to the input of a target, which several values share, also across threads. Contracts see what was given.
#[derive(Debug, Drop)]
pub struct SharedInput {
    input: Arc<ReadInput>,
}

impl Model for SharedInput {
    ghost use Rattle.std.specs.Arc.{arc_value};
    ghost use Rattle.rule_targets.specs.declared.given.GivenInput.{GivenInput};
    ghost use Rattle.rule_targets.specs.Input.{IsValidInput, IsReadOf};

    ghost Value = { GivenInput };

    ghost view = { λ s. (arc_value s.input).given };

    ghost invariant = { λ s. IsValidInput (arc_value s.input).given × IsReadOf (arc_value s.input).given (arc_value s.input).read };
}

impl SharedInput {
    /// The input that is given, read. `None` if it is not valid.
    pub fn read(alloc: Global, given: GivenInput) -> Result<Option<SharedInput>, NoMemory>
        ensures { IfOk result (λ found. MatchOption found (¬ IsValidInput given) (λ s. (s ≡ given) × IsValidInput given)) }
    {
        match read_input(alloc, &given)? {
            Some(read) => Ok(Some(SharedInput::new(alloc, given, read)?)),
            None => Ok(None),
        }
    }

    fn new(alloc: Global, given: GivenInput, read: Input) -> Result<SharedInput, NoMemory>
        requires valid { IsValidInput given }
        requires read { IsReadOf given read }
        ensures { IfOk result (λ s. s ≡ given) }
    {
        Ok(SharedInput {
            input: Arc::new(alloc, ReadInput { given, read })?,
        })
    }

    /// Another pointer to the same input. Allocates nothing. An `Err` means that no more pointers can be counted.
    pub fn share(&self) -> Result<SharedInput, NoMemory>
        ensures value { IfOk result (λ s. s ≡ self.now) }
        ensures valid { IsValidInput self.now }
    {
        Ok(SharedInput {
            input: Arc::try_clone(&self.input)?,
        })
    }

    /// The input as it was given.
    pub fn given(&self) -> &GivenInput
        ensures value { result.now ≡ self.now }
        ensures valid { IsValidInput self.now }
    {
        &self.input.given
    }

    /// What was read of it.
    pub fn input(&self) -> &Input
        ensures { IsReadOf self.now result.now }
    {
        &self.input.read
    }
}

/// Another pointer to the input, if there is one.
pub fn share_input(input: &Option<SharedInput>) -> Result<Option<SharedInput>, NoMemory>
    ensures value { IfOk result (λ shared. shared ≡ input.now) }
    ensures valid { IsNoneOrValid input.now }
{
    match input {
        Some(input) => Ok(Some(input.share()?)),
        None => Ok(None),
    }
}
