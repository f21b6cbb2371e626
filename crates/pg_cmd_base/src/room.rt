//! The room that is wanted, and the room that there is.

ghost use Rattle.std.specs.Prelude.{◌≡◌, ◌≢◌, ◌≤◌, ◌+◌, ◌-◌, ℕ, Err, OnOk};
ghost use Rattle.pg_cmd_base.specs.Answering.{Comes};
ghost use Rattle.pg_cmd_base.specs.Rooms.{RoomDue, of_room};
ghost use Rattle.pg_cmd_base.specs.declared.refusal.Stop.TheVariants.{Memory};

use crate::refusal::{Refusal, Stop};
use pg_report::RefusalLine;
use pg_word::Shape;

/// More cells are wanted than are free.
pub fn no_room(wanted: u32, free: u32) -> Stop
    ensures { result ≡ Stop.Refused (of_room (record { wanted = wanted; free = free })) }
{
    Stop::Refused(Refusal::Line(RefusalLine::Room(u64::from(wanted), u64::from(free))))
}

/// That so many cells, one or more, find room in the storage of machines of a shape, beside those that monitors keep; or why a
/// command goes no further.
pub fn try_room(wanted: u32, kept: u32, shape: &Shape) -> Result<(), Stop>
    requires { 1 ≤ wanted }
    ensures comes { (reads : ℕ) → Comes (λ done. wanted) (RoomDue wanted (shape.now.q - kept)) reads reads result }
    ensures fits { OnOk result (kept + wanted ≤ shape.now.q) }
    ensures no_memory { result ≢ Err Memory }
{
    let free = shape.q.saturating_sub(kept);
    if wanted > free {
        return Err(no_room(wanted, free));
    }
    Ok(())
}
