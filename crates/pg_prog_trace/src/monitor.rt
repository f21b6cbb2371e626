//! The monitor of a certificate's family.

ghost use Rattle.std.specs.Prelude.{◌≡◌};
ghost use Rattle.pg_prog_trace.specs.Judging.{monitor_of};

use pg_cert::Family;
use pg_out_steps::Monitor;

/// The monitor that may run a machine which a certificate of this family accepts.
pub fn monitor_of(family: Family) -> Monitor
    ensures { result ≡ monitor_of family }
{
    match family {
        Family::Plain => Monitor::Plain,
        Family::Hybrid => Monitor::Hybrid,
    }
}
