// The count of faults, and which calls of a device in memory fail.
ghost use Rattle.std.specs.Prelude.{◌≡◌, ◌≤◌, ◌↔◌, IsTrue, Contains};
ghost use Rattle.mov_edge.specs.Outside.{next_count};

use crate::Failed;

/// Counts a fault, up to the last value of the count.
pub(crate) fn raise(faults: &mut u64) -> Failed
    ensures counted { faults.new ≡ next_count faults.old }
    ensures later { faults.old ≤ faults.new }
{
    *faults = faults.saturating_add(1);
    Failed
}

/// Whether the call with this number is listed.
pub(crate) fn is_listed(failing: &[u32], call: u64) -> bool
    ensures { IsTrue result ↔ Contains failing.now call }
{
    failing.iter().any(|number| u64::from(*number) == call)
}
