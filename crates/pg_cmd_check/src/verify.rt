//! `verify`: a certificate of a description, and its verdict.
//!
//! The description is loaded, and then the certificate. Then the text of the verdict is put, with no more memory, and nothing
//! but the sink can refuse.

ghost use Rattle.std.specs.Prelude.{None};
ghost use Rattle.pg_cmd_base.specs.Commands.{Carries};
ghost use Rattle.pg_cmd_base.specs.World.{Keeps, around};
ghost use Rattle.pg_cmd_check.specs.Verify.{verify_command};

use pg_cert::Family;
use pg_cli_table::VerifyWords;
use pg_cmd_base::{Status, StopWatcher, stopped};
use pg_cmd_certs::{load_judged, tell_verdict};
use pg_edge::{Shelf, Sink};
use pg_hw::Hardware;
use std::alloc::Global;

/// Carries out `verify`. The hardware is lent, and stays as it is.
pub fn carry_verify<F: Shelf, S: Sink, H: Hardware, W: StopWatcher>(
    alloc: Global,
    words: &VerifyWords,
    shelf: &mut F,
    out: &mut S,
    hw: &H,
    watcher: &mut W,
) -> Status
    ensures carries { Carries (verify_command words.now) (around F.Shelf S.Sink H.Hardware shelf.old out.old hw.now)
        (around F.Shelf S.Sink H.Hardware shelf.new out.new hw.now) result }
    ensures keeps { Keeps None (around F.Shelf S.Sink H.Hardware shelf.old out.old hw.now)
        (around F.Shelf S.Sink H.Hardware shelf.new out.new hw.now) }
{
    match load_judged(alloc, Family::Plain, &words.desc, &words.cert, shelf) {
        Ok(judged) => tell_verdict(out, &judged),
        Err(stop) => stopped(&stop, out, watcher),
    }
}
