//! The writes that stand, laid over a word.
//!
//! A word that is touched is what a storage has there before all writes, and then, from the oldest write to the newest, the
//! write's value where the write is done and its address is this one. So a newer write hides an older one, and a write that
//! is not done hides nothing. `specs/Made.antt` says of which gates that is built.

ghost use Rattle.std.specs.Prelude.{◌≡◌, ◌+◌, ◌*◌, ◌<◌, length, IfOk};
ghost use Rattle.std.specs.List.{All};
ghost use Rattle.pg_vec.specs.There.{AreThere};
ghost use Rattle.pg_vec.specs.AddsNodes.{AddsNodes};
ghost use Rattle.pg_cells.specs.Over.{IsWrite};
ghost use Rattle.pg_cells.specs.Made.{hit_made, over_made, laid_made};
ghost use Rattle.pg_cells.specs.Means.{each_write};

use crate::cell::Write;
use crate::string::choose_string;
use pg_circuit::{Circuit, Gate};
use pg_vec::compare;
use pg_vec::gate::and;
use std::alloc::{AllocError, Global};

/// Whether a write is done, and at this address.
fn hit(circuit: &mut Circuit, address: &[Gate], write: &Write) -> Result<Gate, AllocError>
    requires there { AreThere (length circuit.old.nodes) address.now }
    requires guard { write.now.guard.number < length circuit.old.nodes }
    requires write { AreThere (length circuit.old.nodes) write.now.address }
    requires same_width { length address.now ≡ length write.now.address }
    ensures made { IfOk result (λ gate. (gate, circuit.new.nodes) ≡ hit_made circuit.old.nodes address.now write.now) }
    ensures there { IfOk result (λ gate. gate.number < length circuit.new.nodes) }
    ensures kept { AddsNodes circuit.old.nodes circuit.new.nodes (length address.now * 2 + 1) }
{
    let same = compare::same(circuit, address, write.address.as_slice())?;
    and(circuit, write.guard, same)
}

/// A word after one more write.
fn over(
    alloc: Global,
    circuit: &mut Circuit,
    address: &[Gate],
    write: &Write,
    word: &[Gate],
) -> Result<Vec<Gate>, AllocError>
    requires there { AreThere (length circuit.old.nodes) address.now }
    requires write { IsWrite (length circuit.old.nodes) (length word.now) (length address.now) write.now }
    requires word { AreThere (length circuit.old.nodes) word.now }
    ensures made { IfOk result (λ bits. (bits.items, circuit.new.nodes) ≡ over_made circuit.old.nodes address.now write.now word.now) }
    ensures there { IfOk result (λ bits. AreThere (length circuit.new.nodes) bits.items) }
    ensures width { IfOk result (λ bits. length bits.items ≡ length word.now) }
    ensures kept { AddsNodes circuit.old.nodes circuit.new.nodes (each_write (length word.now) (length address.now)) }
{
    let hit = hit(circuit, address, write)?;
    choose_string(alloc, circuit, hit, write.value.as_slice(), word)
}

/// The writes laid over a word, from the oldest to the newest.
pub fn lay(
    alloc: Global,
    circuit: &mut Circuit,
    address: &[Gate],
    writes: &[Write],
    word: &[Gate],
) -> Result<Vec<Gate>, AllocError>
    requires there { AreThere (length circuit.old.nodes) address.now }
    requires writes { All (IsWrite (length circuit.old.nodes) (length word.now) (length address.now)) writes.now }
    requires word { AreThere (length circuit.old.nodes) word.now }
    ensures made { IfOk result (λ bits. (bits.items, circuit.new.nodes) ≡ laid_made circuit.old.nodes address.now writes.now word.now) }
    ensures there { IfOk result (λ bits. AreThere (length circuit.new.nodes) bits.items) }
    ensures width { IfOk result (λ bits. length bits.items ≡ length word.now) }
    ensures kept { AddsNodes circuit.old.nodes circuit.new.nodes (length writes.now * each_write (length word.now) (length address.now)) }
{
    let mut so_far = Vec::from_slice(alloc, word)?;
    for write in writes {
        so_far = over(alloc, circuit, address, write, so_far.as_slice())?;
    }
    Ok(so_far)
}
