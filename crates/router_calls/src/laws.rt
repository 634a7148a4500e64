//! Laws of the machine.
ghost use Rattle.std.specs.Prelude.{◌≡◌, ◌≤◌, ℕ, List, Option, Some};
ghost use Rattle.std.specs.List.{Contains};
ghost use Rattle.json_text.specs.Node.{Node};
ghost use Rattle.json_text.specs.Grammar.{IsText};
ghost use Rattle.json_text.specs.Compact.{tree_levels};
ghost use Rattle.event_shape.specs.Names.{owner};
ghost use Rattle.input_transform.specs.Names.{Scene};
ghost use Rattle.input_transform.specs.Stored.{IsScene};
ghost use Rattle.rule_targets.specs.declared.given.GivenInput.{GivenInput};
ghost use Rattle.rule_table.specs.Control.{Control};
ghost use Rattle.rule_table.specs.RuleSet.{RuleSet};
ghost use Rattle.delivery_duties.specs.declared.duty.NewDuty.{NewDuty};
ghost use Rattle.router_requests.specs.Batch.{Accepted, Batch, Entry, accepted, control};
ghost use Rattle.router_requests.specs.Duties.{IsTargetText};
ghost use Rattle.router_core.specs.Replaying.{IsReplayStep};
ghost use Rattle.router_requests.specs.Request.{Request};
ghost use Rattle.router_core.specs.Tables.{Tables};
ghost use Rattle.router_calls.specs.Accepted.{HasScenes};
ghost use Rattle.router_calls.specs.Answer.{Answer, IsAnswer};
ghost use Rattle.router_calls.specs.Allowed.{IsPublishedBy, entries_in};
ghost use Rattle.router_calls.specs.Changes.{MayMake, MayReplay};

/// A request has at most one answer on each configuration version.
pub fn one_answer()
    ensures { (t : Tables) (r : Request) (k : ℕ) (set : RuleSet) (a b : Answer) → IsAnswer t r k set a → IsAnswer t r k set b → a ≡ b }
{}

/// There is at most one next step of the replays at a moment, and it is one batch.
pub fn one_step()
    ensures { (t : Tables) (moment : ℕ) (a b : Batch) → IsReplayStep t moment a → IsReplayStep t moment b → a ≡ b }
{}

/// What an accepted event owes a target is one JSON text of at most 200 levels, whatever the event, the rule and the target's input are.
/// So is any text of a target that is filled from a JSON value of at most 100 levels and texts, and an accepted event's are.
pub fn a_target_gets_one_json_text()
    ensures owed { (t : Tables) (r : Request) (k : ℕ) (set : RuleSet) (a : Answer) (b : Batch) (e : Accepted) (d : NewDuty) → IsAnswer t r k set a
        → a.batch ≡ Some b → Contains b.entries (accepted e) → Contains e.duties d → (n : Node) × IsText 200 d.text n }
    ensures from { (t : Tables) (r : Request) (k : ℕ) (set : RuleSet) (a : Answer) (b : Batch) (e : Accepted) → IsAnswer t r k set a
        → a.batch ≡ Some b → Contains b.entries (accepted e) → HasScenes e }
    ensures filled { (scene : Scene) (input : Option GivenInput) (text : List ℕ) → IsScene scene → tree_levels scene.event ≤ 100
        → IsTargetText scene input text → (n : Node) × IsText 200 text n }
{}

/// A caller other than the owner writes nothing but accepted events, each of which the policy of its bus allows.
pub fn a_stranger_only_publishes()
    ensures { (t : Tables) (r : Request) (k : ℕ) (set : RuleSet) (a : Answer) → IsAnswer t r k set a → ¬ (r.caller ≡ owner)
        → IsPublishedBy t.set set r.caller (entries_in r.action) a.batch }
{}

/// A request writes no change of the configuration but the one that it asks for. It starts and cancels no replay but the one that it asks for, and
/// steps none.
pub fn only_its_request()
    ensures changes { (t : Tables) (r : Request) (k : ℕ) (set : RuleSet) (a : Answer) (b : Batch) (c : Control) → IsAnswer t r k set a → a.batch ≡ Some b
        → Contains b.entries (control c) → MayMake t r.action c }
    ensures replays { (t : Tables) (r : Request) (k : ℕ) (set : RuleSet) (a : Answer) (b : Batch) (e : Entry) → IsAnswer t r k set a → a.batch ≡ Some b
        → Contains b.entries e → MayReplay r.action e }
{}
