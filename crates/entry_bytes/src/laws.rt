//! What is at the front of bytes is what is spelled there.
ghost use Rattle.std.specs.Prelude.{◌≡◌, ℕ, ◌<◌, List, ◌++◌, Some};
ghost use Rattle.std.specs.List.{AllByRecursion};
ghost use Rattle.rule_table.specs.Control.{Control};
ghost use Rattle.delivery_duties.specs.declared.duty.NewDuty.{NewDuty};
ghost use Rattle.delivery_duties.specs.declared.outcome.Outcome.{Outcome};
ghost use Rattle.entry_bytes.specs.Change.{change_bytes, IsChange};
ghost use Rattle.entry_bytes.specs.Duty.{duty_bytes, outcome_bytes, IsDuty, IsNamed, IsOutcome};
ghost use Rattle.entry_bytes.specs.Reading.{IsReadAs, list_at};
ghost use Rattle.entry_bytes.specs.ChangeReading.{change_at};
ghost use Rattle.entry_bytes.specs.DutyReading.{duty_at, outcome_at};

/// The reader of changes finds each change that has bytes where its bytes are, and no other.
pub fn a_change_is_read_as_it_is_spelled()
    ensures { IsReadAs change_bytes change_at IsChange }
{}

/// The same of duties whose rule has the name that ends its ARN.
pub fn a_duty_is_read_as_it_is_spelled()
    ensures { IsReadAs duty_bytes duty_at (λ d. IsDuty d × IsNamed d) }
{}

/// The same of outcomes.
pub fn an_outcome_is_read_as_it_is_spelled()
    ensures { IsReadAs outcome_bytes outcome_at IsOutcome }
{}
