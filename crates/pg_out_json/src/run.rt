//! A run of a machine from its image on.

ghost use Rattle.std.specs.Prelude.{◌≡◌, ◌^◌, ◌<◌, ◌≤◌, length, All, IsErrOf, OnOk};
ghost use Rattle.pg_ast.specs.declared.tree.Desc.{Desc};
ghost use Rattle.pg_edge.specs.Count.{Rose};
ghost use Rattle.pg_lang_meaning.specs.Steps.{bare};
ghost use Rattle.pg_lang_valid.specs.Valid.{IsValid};

use crate::counts::push_tally;
use crate::held::put_held;
use crate::turns::put_turns;
use pg_edge::Sink;
use pg_hw::{Hardware, power_on};
use pg_mach_ready::Machine;
use pg_out_place::Text;
use pg_out_steps::{Monitor, Tally, TraceFault};
use std::alloc::Global;

/// Switches a hardware on with an image, all of whose cells are a word of the machine, runs it for `n` steps, less than 2^32, and puts
/// the pieces that are told, the counts and the state at the end, behind what a buffer holds; and the end of the whole text. The
/// state that is reached is that of a bare machine.
///
/// # Errors
/// `Output` where a put failed, and `Memory` where there is none for cells, for counts or for a piece.
pub fn put_run<H: Hardware, S: Sink>(
    alloc: Global,
    m: &Machine,
    image: &[u64],
    hw: &mut H,
    out: &mut S,
    text: &mut Text,
    n: u64,
    monitor: Option<Monitor>,
) -> Result<(), TraceFault>
    requires serves { (d : Desc) → IsValid d → H.serves (H.fixed hw.old) d }
    requires room { length image.now ≤ H.room (H.fixed hw.old) }
    requires least { 2 ≤ length image.now }
    requires small { length image.now ≤ 1048575 }
    requires most { length image.now ≤ m.now.desc.size }
    requires words { All (λ word. word < 2 ^ m.now.desc.word) image.now }
    requires few { n < 2 ^ 32 }
    ensures reached { OnOk result ((H.machinery hw.new).state ≡ bare m.now.desc image.now (length image.now) n) }
    ensures later { S.faults out.old ≤ S.faults out.new }
    ensures cause { IsErrOf result TraceFault.Output → Rose (S.faults out.old) (S.faults out.new) }
{
    hw.install(image.len() as u32)?;
    power_on(hw, image);
    text.push(b",\n\"pieces\":");
    let tally = put_turns(alloc, m, hw, out, text, n, monitor)?;
    put_end(out, text, m, hw, &tally, monitor)
}

/// Puts what stands behind the pieces.
fn put_end<H: Hardware, S: Sink>(
    out: &mut S,
    text: &mut Text,
    m: &Machine,
    hw: &H,
    tally: &Tally,
    monitor: Option<Monitor>,
) -> Result<(), TraceFault>
    ensures later { S.faults out.old ≤ S.faults out.new }
    ensures cause { IsErrOf result TraceFault.Output → Rose (S.faults out.old) (S.faults out.new) }
{
    text.push(b"]}],\n\"counts\":");
    push_tally(text, m, tally, monitor);
    text.push(b",\n\"end\":");
    put_held(out, text, m, hw)?;
    text.push(b"}\n");
    out.put(text.whole()?)?;
    Ok(())
}
