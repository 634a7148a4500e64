//! Texts to values.
ghost use Rattle.std.specs.Prelude.{◌≡◌, ◌≤◌, ℕ, Some, None, IfOk, MatchResult};
ghost use Rattle.json_text.specs.View.{tree_of};
ghost use Rattle.json_text.specs.Node.{Node, value_of, first_repeat};
ghost use Rattle.json_text.specs.Grammar.{IsText};
ghost use Rattle.json_text.specs.Faults.{FailsAt, OpensTooMany};
ghost use Rattle.json_text.specs.Compact.{IsValue, tree_levels};
ghost use Rattle.json_text.specs.Once.{IsRepeatOrMemory};

use super::reader::{Read, read_all};
use super::{Json, JsonFault};
use std::alloc::Global;

/// The value that the text spells, with at most `levels` levels of lists and objects. A repeated key keeps its first place and
/// its last value. A place in an error is the number of bytes before it. `levels` is at most 1,000, because a value is
/// dropped and copied by one nested call for each level: 100 levels use about 40 kB of stack, and 58,000 overflow it.
pub fn read(alloc: Global, bytes: &[u8], levels: u32) -> Result<Json, JsonFault>
    requires { levels ≤ 1000 }
    ensures found { IfOk result (λ v. (n : Node) × IsText levels bytes.now n
        × (tree_of v ≡ value_of n)) }
    ensures only { (n : Node) → IsText levels bytes.now n
        → MatchResult result (λ v. tree_of v ≡ value_of n) (λ e. e ≡ JsonFault.NoMemory) }
    ensures not_json { (at : ℕ) → result ≡ Err (JsonFault.NotJson at)
        → FailsAt levels bytes.now at × ¬ (OpensTooMany levels bytes.now at) }
    ensures too_deep { (at : ℕ) → result ≡ Err (JsonFault.TooDeep at)
        → FailsAt levels bytes.now at × OpensTooMany levels bytes.now at }
    ensures never_twice { (at : ℕ) → result ≡ Err (JsonFault.KeyTwice at) → ⊥ }
    ensures value { IfOk result (λ v. IsValue (tree_of v)) }
    ensures levels { IfOk result (λ v. tree_levels (tree_of v) ≤ levels) }
{
    match read_all(alloc, bytes, levels) {
        Ok(Read { json, repeat: _ }) => Ok(json),
        Err(fault) => Err(fault),
    }
}

/// The same, but refuses a text in which an object has a key twice: `KeyTwice` has the place of the first repeated key. It
/// is returned only for a text that is JSON within the levels.
pub fn read_once(alloc: Global, bytes: &[u8], levels: u32) -> Result<Json, JsonFault>
    requires { levels ≤ 1000 }
    ensures found { IfOk result (λ v. (n : Node) × IsText levels bytes.now n
        × (first_repeat n ≡ None) × (tree_of v ≡ value_of n)) }
    ensures only { (n : Node) → IsText levels bytes.now n
        → MatchResult result (λ v. (first_repeat n ≡ None)
        × (tree_of v ≡ value_of n)) (λ e. IsRepeatOrMemory n e) }
    ensures not_json { (at : ℕ) → result ≡ Err (JsonFault.NotJson at)
        → FailsAt levels bytes.now at × ¬ (OpensTooMany levels bytes.now at) }
    ensures too_deep { (at : ℕ) → result ≡ Err (JsonFault.TooDeep at)
        → FailsAt levels bytes.now at × OpensTooMany levels bytes.now at }
    ensures key_twice { (at : ℕ) → result ≡ Err (JsonFault.KeyTwice at) → (n : Node)
        × IsText levels bytes.now n × (first_repeat n ≡ Some at) }
    ensures value { IfOk result (λ v. IsValue (tree_of v)) }
    ensures levels { IfOk result (λ v. tree_levels (tree_of v) ≤ levels) }
{
    match read_all(alloc, bytes, levels) {
        Ok(Read { json, repeat }) => match repeat {
            None => Ok(json),
            Some(at) => Err(JsonFault::KeyTwice { at }),
        },
        Err(fault) => Err(fault),
    }
}
