//! Counters of faults and of calls, which stay at their last value.
ghost use Rattle.std.specs.Prelude.{◌≡◌};
ghost use Rattle.pg_edge.specs.Count.{one_more};

/// The counter one step on.
pub(crate) fn raised(count: u64) -> u64
    ensures { result ≡ one_more count }
{
    count.saturating_add(1)
}
