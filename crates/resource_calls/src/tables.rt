//! What holds of all tables.
ghost use Rattle.rule_table.specs.Sound.{IsSound};
ghost use Rattle.router_core.specs.Tables.{IsConsistent};

use router_core::Tables;

/// Reads the tables for their contracts alone: what holds of every `Tables` and `RuleSet` (their invariants) is known in a
/// proof only after a call that promises it.
pub fn read_tables(tables: &Tables)
    ensures sound { IsSound tables.now.set }
    ensures consistent { IsConsistent tables.now }
{
    let _count = tables.set().control_count();
    let _full = tables.full();
}
