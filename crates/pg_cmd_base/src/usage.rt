//! How a program beside `pgv` answers words that it does not take.

ghost use Rattle.std.specs.Prelude.{◌≤◌};
ghost use Rattle.pg_cmd_base.specs.Classes.{class_of};
ghost use Rattle.pg_cmd_base.specs.Usage.{UsageAs};
ghost use Rattle.pg_cmd_base.specs.World.{output};

use crate::status::Status;
use pg_edge::Sink;
use pg_report::put_text;

/// Puts how a program is called, and answers with the status of words that are not taken.
pub fn tell_usage<S: Sink>(out: &mut S, usage: &[u8]) -> Status
    ensures told { UsageAs usage.now (output S.Sink out.old) (output S.Sink out.new) result (class_of result) }
    ensures later { S.faults out.old ≤ S.faults out.new }
{
    match put_text(out, usage) {
        Ok(()) => Status::Words,
        Err(_) => Status::WriteFault,
    }
}
