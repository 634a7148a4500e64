// A count of faults.
ghost use Rattle.std.specs.Prelude.{◌≡◌, ◌≤◌, ◌+◌, min};
ghost use Rattle.router_disk.specs.Faults.{Rose, last_count};

/// Counts a fault. A count at the last `u64` stays there.
pub fn raise(faults: &mut u64)
    ensures later { faults.old ≤ faults.new }
    ensures rose { Rose faults.old faults.new }
    ensures one { faults.new ≡ min (faults.old + 1) last_count }
{
    *faults = faults.saturating_add(1);
}
