//! Cells of a storage that are touched, one by one, and the writes that stand.
//!
//! A question about an instruction runs its body twice over one storage, of which nothing is known but that it is there. A
//! cell is named where a run touches it: w new inputs of the circuit stand for its word, whatever its address is worth. So
//! two cells may be one and the same for some values of the inputs, and `consistent` is the gate that then their words are
//! one too. Where it is true the cells are those of one storage (`TellsConsistent`), and for every storage there are inputs
//! that make the cells its own (`laws`): a question asked of the cells is one asked of storages.
//!
//! A write names no cell. It stands until `rewind`, and each word that is touched has the writes that stand laid over it, so
//! that both runs begin with the same cells and none of the other's writes.
//!
//! The circuit is lent to each call. It is the same one at all calls, or what it has grown to (`IsOver`); the law
//! `cells_stay` says that growth does no harm.

ghost use Rattle.std.specs.Prelude.{◌≡◌, ◌+◌, ◌*◌, ◌^◌, ◌<◌, ◌≤◌, List, [], ◌∷◌, ◌++◌, length, take, slice_index_or, IfOk, OnOk, OnErr};
ghost use Rattle.pg_circuit.specs.declared.node.Node.{Node};
ghost use Rattle.pg_word.specs.Bits.{IsWidth};
ghost use Rattle.pg_vec.specs.There.{AreThere};
ghost use Rattle.pg_vec.specs.AddsNodes.{AddsNodes};
ghost use Rattle.pg_cells.specs.Over.{IsOver};
ghost use Rattle.pg_cells.specs.Made.{no_cell, inputs_made, laid_made, touch_made, cells_after, consistent_made};
ghost use Rattle.pg_cells.specs.Means.{touch_most, each_pair, GrowsBy, IsWordAt, TellsConsistent};

use crate::agree::agree_with_all;
use crate::cell::{Cell, Write};
use crate::find::find;
use crate::inputs::inputs;
use crate::lay::lay;
use pg_circuit::{Circuit, Gate};
use pg_vec::Bits;
use std::alloc::{AllocError, Global};
use std::marker::Model;

/// The cells that were touched, in the order of their first touch, and the writes that stand, in their order.
#[derive(Drop)]
pub struct Touched {
    alloc: Global,
    w: u32,
    a: u32,
    cells: Vec<Cell>,
    writes: Vec<Write>,
}

impl Model for Touched {
    ghost use Rattle.pg_cells.specs.View.{View};

    ghost Value = { View };

    ghost view = { λ t. record { w = t.w; a = t.a; cells = t.cells.items; writes = t.writes.items } };
}

impl Touched {
    /// No cell and no write, of a machine with words of `w` bits, 1 to 64, and addresses of `a`, 1 to 32. It takes no memory
    /// yet.
    pub fn new(alloc: Global, w: u32, a: u32) -> Touched
        requires word_width { IsWidth w }
        requires address_least { 1 ≤ a }
        requires address_most { a ≤ 32 }
        ensures view { result ≡ record { w = w; a = a; cells = []; writes = [] } }
        ensures over { (nodes : List Node) → IsOver nodes result }
    {
        Touched {
            alloc,
            w,
            a,
            cells: Vec::new(alloc),
            writes: Vec::new(alloc),
        }
    }

    /// How many bits a word has.
    pub fn word_width(&self) -> u32
        ensures { result ≡ self.now.w }
    {
        self.w
    }

    /// How many bits an address has.
    pub fn address_width(&self) -> u32
        ensures { result ≡ self.now.a }
    {
        self.a
    }

    /// The cells, in the order of their first touch.
    pub fn cells(&self) -> &[Cell]
        ensures { result.now ≡ self.now.cells }
    {
        self.cells.as_slice()
    }

    /// The writes that stand, in their order.
    pub fn writes(&self) -> &[Write]
        ensures { result.now ≡ self.now.writes }
    {
        self.writes.as_slice()
    }

    /// The word at an address of `a` bits, after the writes that stand. Where no cell has the address, gate for gate, a new
    /// one is named, with `w` new inputs as its word. The error is out of memory: cells and writes stay, and the circuit
    /// may hold further gates. The search is linear in the cells, what is built in the writes: while at most 72 stand, as many as
    /// 64 and what an instruction may write, at most 2^15 nodes are added (`few`).
    pub fn touch(&mut self, circuit: &mut Circuit, address: &Bits) -> Result<Bits, AllocError>
        requires over { IsOver circuit.old.nodes self.old }
        requires there { AreThere (length circuit.old.nodes) address.now }
        requires width { length address.now ≡ self.old.a }
        ensures made { IfOk result (λ word. (word, circuit.new.nodes) ≡ touch_made circuit.old.nodes self.old address.now) }
        ensures cells { OnOk result (self.new ≡ record self.old { cells = cells_after circuit.old.nodes self.old.w self.old.cells address.now }) }
        ensures kept { take (length self.old.cells) self.new.cells ≡ self.old.cells }
        ensures worth { IfOk result (λ word. IsWordAt circuit.new.nodes self.new.w self.new.a self.new.cells self.new.writes address.now word) }
        ensures there { IfOk result (λ word. AreThere (length circuit.new.nodes) word) }
        ensures width { IfOk result (λ word. length word ≡ self.old.w) }
        ensures over { IsOver circuit.new.nodes self.new }
        ensures grows { GrowsBy circuit.old.nodes circuit.new.nodes (touch_most self.old) self.old.w }
        ensures few { length self.old.writes ≤ 72 → length circuit.new.nodes ≤ length circuit.old.nodes + 2 ^ 15 }
        ensures err { OnErr result (self.new ≡ self.old) }
    {
        match find(self.cells.as_slice(), address.as_slice()) {
            Some(place) => self.touch_again(circuit, place, address),
            None => self.touch_first(circuit, address),
        }
    }

    /// The word at the address of a cell that was touched.
    fn touch_again(
        &self,
        circuit: &mut Circuit,
        place: usize,
        address: &Bits,
    ) -> Result<Bits, AllocError>
        requires over { IsOver circuit.old.nodes self.now }
        requires there { AreThere (length circuit.old.nodes) address.now }
        requires width { length address.now ≡ self.now.a }
        requires place { place < length self.now.cells }
        ensures made { IfOk result (λ word. (word, circuit.new.nodes) ≡ laid_made circuit.old.nodes address.now self.now.writes (let cell = slice_index_or self.now.cells place no_cell in cell.word)) }
        ensures grows { GrowsBy circuit.old.nodes circuit.new.nodes (touch_most self.now) self.now.w }
    {
        let cell = &self.cells.as_slice()[place];
        let writes = self.writes.as_slice();
        let word = lay(
            self.alloc,
            circuit,
            address.as_slice(),
            writes,
            cell.word.as_slice(),
        )?;
        Ok(Bits::from_vec(word))
    }

    /// The word at an address that no cell has, which gets one. The error is out of memory, and the cells stay.
    fn touch_first(&mut self, circuit: &mut Circuit, address: &Bits) -> Result<Bits, AllocError>
        requires over { IsOver circuit.old.nodes self.old }
        requires there { AreThere (length circuit.old.nodes) address.now }
        requires width { length address.now ≡ self.old.a }
        ensures made { IfOk result (λ word. (word, circuit.new.nodes) ≡ (let made = inputs_made circuit.old.nodes self.old.w in laid_made made.1 address.now self.old.writes made.0)) }
        ensures cells { OnOk result (self.new ≡ record self.old { cells = self.old.cells ++ record { address = address.now; word = (inputs_made circuit.old.nodes self.old.w).0 } ∷ [] }) }
        ensures grows { GrowsBy circuit.old.nodes circuit.new.nodes (touch_most self.old) self.old.w }
        ensures err { OnErr result (self.new ≡ self.old) }
    {
        let initial = inputs(self.alloc, circuit, self.w)?;
        let writes = self.writes.as_slice();
        let word = lay(
            self.alloc,
            circuit,
            address.as_slice(),
            writes,
            initial.as_slice(),
        )?;
        let address = Bits::from_slice(self.alloc, address.as_slice())?;
        let cell = Cell {
            address,
            word: Bits::from_vec(initial),
        };
        self.cells.push(cell)?;
        Ok(Bits::from_vec(word))
    }

    /// A write that stands from here on: where the guard is true, the value, of `w` bits, is put at the address, of `a`. It
    /// names no cell and makes no gate; the circuit is the one whose gates these are. The error is out of memory: cells
    /// and writes stay.
    pub fn write(
        &mut self,
        circuit: &Circuit,
        guard: Gate,
        address: &Bits,
        value: &Bits,
    ) -> Result<(), AllocError>
        requires over { IsOver circuit.now.nodes self.old }
        requires guard { guard.number < length circuit.now.nodes }
        requires address { AreThere (length circuit.now.nodes) address.now }
        requires address_width { length address.now ≡ self.old.a }
        requires value { AreThere (length circuit.now.nodes) value.now }
        requires value_width { length value.now ≡ self.old.w }
        ensures ok { OnOk result (self.new ≡ record self.old { writes = self.old.writes ++ record { guard = guard; address = address.now; value = value.now } ∷ [] }) }
        ensures over { IsOver circuit.now.nodes self.new }
        ensures err { OnErr result (self.new ≡ self.old) }
    {
        let address = Bits::from_slice(self.alloc, address.as_slice())?;
        let value = Bits::from_slice(self.alloc, value.as_slice())?;
        self.writes.push(Write {
            guard,
            address,
            value,
        })?;
        Ok(())
    }

    /// Drops the writes, so that another run begins with the same cells and no write. It takes no memory.
    pub fn rewind(&mut self)
        ensures view { self.new ≡ record self.old { writes = [] } }
        ensures over { (nodes : List Node) → IsOver nodes self.old → IsOver nodes self.new }
    {
        self.writes.clear();
    }

    /// The gate that cells of equal addresses have equal words, of all pairs of cells. Ask for it after the last touch: cells
    /// that are touched later are not compared. The error is out of memory, and the circuit may hold further gates. What is
    /// built is quadratic in the cells; a pair whose addresses are equal for no values costs their comparison alone.
    pub fn consistent(&self, circuit: &mut Circuit) -> Result<Gate, AllocError>
        requires { IsOver circuit.old.nodes self.now }
        ensures made { IfOk result (λ gate. (gate, circuit.new.nodes) ≡ consistent_made circuit.old.nodes self.now.cells) }
        ensures tells { IfOk result (λ gate. TellsConsistent circuit.new.nodes self.now.w self.now.a self.now.cells gate) }
        ensures there { IfOk result (λ gate. gate.number < length circuit.new.nodes) }
        ensures over { IsOver circuit.new.nodes self.now }
        ensures kept { AddsNodes circuit.old.nodes circuit.new.nodes (length self.now.cells * (length self.now.cells * each_pair self.now.w self.now.a)) }
        ensures few { length self.now.cells ≤ 256 → AddsNodes circuit.old.nodes circuit.new.nodes (2 ^ 24) }
    {
        let cells = self.cells.as_slice();
        let mut so_far = circuit.constant(true);
        for (i, cell) in cells.iter().enumerate() {
            so_far = agree_with_all(circuit, so_far, cell, &cells[i + 1..])?;
        }
        Ok(so_far)
    }
}
