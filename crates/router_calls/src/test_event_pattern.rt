//! TestEventPattern.
ghost use Rattle.std.specs.Prelude.{◌≡◌, ℕ, List, IfOk};
ghost use Rattle.json_text.specs.Tree.{Tree};
ghost use Rattle.rule_table.specs.RuleSet.{RuleSet};
ghost use Rattle.router_requests.specs.Matching.{IsSeenResult};
ghost use Rattle.router_requests.specs.Request.{test_event_pattern as test_pattern};
ghost use Rattle.router_core.specs.Tables.{Tables as TablesView};
ghost use Rattle.call_replies.specs.Replies.{tested_reply};
ghost use Rattle.router_calls.specs.Accepted.{is_tested};
ghost use Rattle.resource_calls.specs.Decision.{shown};
ghost use Rattle.resource_calls.specs.Decided.{decided_of, CanBeMade};

use call_replies::tested_reply;
use json_text::NoMemory;
use resource_calls::{Decided, shown};
use router_requests::SeenResult;
use std::alloc::Global;

/// Shows whether the pattern matches, as matching found.
pub(crate) fn test_event_pattern(alloc: Global, found: &SeenResult) -> Result<Decided, NoMemory>
    requires { (set : RuleSet) × (caller pattern : List ℕ) × (event : Tree) × IsSeenResult set caller (test_pattern pattern event) found.now }
    ensures answer { IfOk result (λ d. decided_of d ≡ shown (tested_reply (is_tested found.now))) }
    ensures made { IfOk result (λ d. (t : TablesView) (moment : ℕ) → CanBeMade t moment d) }
{
    match found {
        SeenResult::Tested(matches) => Ok(shown(alloc, tested_reply(alloc, *matches)?)),
        SeenResult::Entries(_) | SeenResult::Nothing => unreachable!(),
    }
}
