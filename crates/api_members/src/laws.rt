//! The laws of the definitions.
ghost use Rattle.std.specs.Prelude.{◌≡◌, List};
ghost use Rattle.json_text.specs.Tree.{Members};
ghost use Rattle.api_replies.specs.declared.cause.Cause.{Cause};
ghost use Rattle.api_members.specs.declared.asked.Asked.{Asked};
ghost use Rattle.api_members.specs.Refusal.{AreSound, IsFirstRefusal};

/// Members have at most one first refusal, and sound members have none.
pub fn one_first_refusal()
    ensures one { (asked : List Asked) (ms : Members) (c d : Cause) → IsFirstRefusal asked ms c → IsFirstRefusal asked ms d → c ≡ d }
    ensures sound { (asked : List Asked) (ms : Members) (c : Cause) → AreSound asked ms → ¬ IsFirstRefusal asked ms c }
{}
