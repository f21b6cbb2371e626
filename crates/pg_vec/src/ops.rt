//! The operations of the description language's expressions, on strings of gates.
//!
//! Each is the function of numbers of the same name in `pg_word`, for every width from 1 to 64, and has one form: the gates
//! handed in are gates of the circuit, `made` says exactly which nodes are added, and `worth` what number the result is in
//! every circuit that begins with the nodes that there are then.
//!
//! The error is out of memory, for the string or for a node. The circuit may hold further nodes then. In any case those
//! that it held stay, and so does what they are worth; at most `2^15` are added, and no input (`kept`). Five operations
//! need no node, and leave the circuit as it was in any case (`same`).

ghost use Rattle.std.specs.Prelude.{◌≡◌, ℕ, ◌+◌, ◌-◌, ◌*◌, ◌^◌, ◌<◌, ◌≤◌, Bool, true, false, cond, length, IfOk, List, bit_and, bit_or, bit_xor};
ghost use Rattle.pg_circuit.specs.Values.{gate_value};
ghost use Rattle.pg_word.specs.Bits.{sum_of, difference_of, product_of, complement_of, left_shifted, right_shifted, equal_bit, below_bit, joined, bits_between, sign_extended};
ghost use Rattle.pg_vec.specs.Number.{number};
ghost use Rattle.pg_vec.specs.There.{AreThere};
ghost use Rattle.pg_vec.specs.AddsNodes.{AddsNodes};
ghost use Rattle.pg_vec.specs.Makes.{MakesBits};
ghost use Rattle.pg_vec.specs.Strings.{bits_not_made, cat_made, cut_made, ext_made, sext_made, bits_and_made, bits_or_made, bits_xor_made, mux_made, add_made, sub_made, mul_made, lt_made, eq_made, shl_made, shr_made};

use crate::bits::Bits;
use crate::compare::{last_carry, same};
use crate::pairwise::{Pairing, pairwise};
use crate::product::product;
use crate::shift::{Direction, ZERO, shift};
use crate::sum::{flip, sum};
use pg_circuit::{Circuit, Gate};
use std::alloc::{AllocError, Global};

/// The sum of two strings of the same width, 1 to 64, modulo `2^width`: a ripple carry adder.
pub fn add(alloc: Global, circuit: &mut Circuit, x: &Bits, y: &Bits) -> Result<Bits, AllocError>
    requires left { AreThere (length circuit.old.nodes) x.now }
    requires right { AreThere (length circuit.old.nodes) y.now }
    requires same_width { length x.now ≡ length y.now }
    ensures made { IfOk result (λ bits. (bits, circuit.new.nodes) ≡ add_made circuit.old.nodes x.now y.now) }
    ensures worth { IfOk result (λ bits. MakesBits circuit.old.nodes (bits, circuit.new.nodes) (length x.now) (2 ^ 15) (λ v. sum_of (length x.now) (number v x.now) (number v y.now))) }
    ensures kept { AddsNodes circuit.old.nodes circuit.new.nodes (2 ^ 15) }
{
    let zero = circuit.constant(false);
    let bits = sum(alloc, circuit, zero, x.as_slice(), y.as_slice())?;
    Ok(Bits::from_vec(bits))
}

/// The difference of two strings of the same width, 1 to 64, modulo `2^width`: `x + not y + 1`.
pub fn sub(alloc: Global, circuit: &mut Circuit, x: &Bits, y: &Bits) -> Result<Bits, AllocError>
    requires left { AreThere (length circuit.old.nodes) x.now }
    requires right { AreThere (length circuit.old.nodes) y.now }
    requires same_width { length x.now ≡ length y.now }
    ensures made { IfOk result (λ bits. (bits, circuit.new.nodes) ≡ sub_made circuit.old.nodes x.now y.now) }
    ensures worth { IfOk result (λ bits. MakesBits circuit.old.nodes (bits, circuit.new.nodes) (length x.now) (2 ^ 15) (λ v. difference_of (length x.now) (number v x.now) (number v y.now))) }
    ensures kept { AddsNodes circuit.old.nodes circuit.new.nodes (2 ^ 15) }
{
    let one = circuit.constant(true);
    let flipped = flip(alloc, circuit, y.as_slice())?;
    let bits = sum(alloc, circuit, one, x.as_slice(), flipped.as_slice())?;
    Ok(Bits::from_vec(bits))
}

/// The product of two strings of the same width, 1 to 64, modulo `2^width`: the sum of the rows of the bits of `y`.
pub fn mul(alloc: Global, circuit: &mut Circuit, x: &Bits, y: &Bits) -> Result<Bits, AllocError>
    requires left { AreThere (length circuit.old.nodes) x.now }
    requires right { AreThere (length circuit.old.nodes) y.now }
    requires same_width { length x.now ≡ length y.now }
    ensures made { IfOk result (λ bits. (bits, circuit.new.nodes) ≡ mul_made circuit.old.nodes x.now y.now) }
    ensures worth { IfOk result (λ bits. MakesBits circuit.old.nodes (bits, circuit.new.nodes) (length x.now) (2 ^ 15) (λ v. product_of (length x.now) (number v x.now) (number v y.now))) }
    ensures kept { AddsNodes circuit.old.nodes circuit.new.nodes (2 ^ 15) }
{
    let bits = product(alloc, circuit, x.as_slice(), y.as_slice())?;
    Ok(Bits::from_vec(bits))
}

/// Each bit of a string of 1 to 64 changed.
pub fn not(alloc: Global, circuit: &mut Circuit, x: &Bits) -> Result<Bits, AllocError>
    requires { AreThere (length circuit.old.nodes) x.now }
    ensures made { IfOk result (λ bits. (bits, circuit.new.nodes) ≡ bits_not_made circuit.old.nodes x.now) }
    ensures worth { IfOk result (λ bits. MakesBits circuit.old.nodes (bits, circuit.new.nodes) (length x.now) 0 (λ v. complement_of (length x.now) (number v x.now))) }
    ensures same { circuit.new ≡ circuit.old }
{
    let bits = flip(alloc, circuit, x.as_slice())?;
    Ok(Bits::from_vec(bits))
}

/// The and of two strings of the same width, 1 to 64, bit by bit.
pub fn and(alloc: Global, circuit: &mut Circuit, x: &Bits, y: &Bits) -> Result<Bits, AllocError>
    requires left { AreThere (length circuit.old.nodes) x.now }
    requires right { AreThere (length circuit.old.nodes) y.now }
    requires same_width { length x.now ≡ length y.now }
    ensures made { IfOk result (λ bits. (bits, circuit.new.nodes) ≡ bits_and_made circuit.old.nodes x.now y.now) }
    ensures worth { IfOk result (λ bits. MakesBits circuit.old.nodes (bits, circuit.new.nodes) (length x.now) (2 ^ 15) (λ v. bit_and (number v x.now) (number v y.now))) }
    ensures kept { AddsNodes circuit.old.nodes circuit.new.nodes (2 ^ 15) }
{
    let bits = pairwise(alloc, circuit, Pairing::And, x.as_slice(), y.as_slice())?;
    Ok(Bits::from_vec(bits))
}

/// The or of two strings of the same width, 1 to 64, bit by bit.
pub fn or(alloc: Global, circuit: &mut Circuit, x: &Bits, y: &Bits) -> Result<Bits, AllocError>
    requires left { AreThere (length circuit.old.nodes) x.now }
    requires right { AreThere (length circuit.old.nodes) y.now }
    requires same_width { length x.now ≡ length y.now }
    ensures made { IfOk result (λ bits. (bits, circuit.new.nodes) ≡ bits_or_made circuit.old.nodes x.now y.now) }
    ensures worth { IfOk result (λ bits. MakesBits circuit.old.nodes (bits, circuit.new.nodes) (length x.now) (2 ^ 15) (λ v. bit_or (number v x.now) (number v y.now))) }
    ensures kept { AddsNodes circuit.old.nodes circuit.new.nodes (2 ^ 15) }
{
    let bits = pairwise(alloc, circuit, Pairing::Or, x.as_slice(), y.as_slice())?;
    Ok(Bits::from_vec(bits))
}

/// The exclusive or of two strings of the same width, 1 to 64, bit by bit.
pub fn xor(alloc: Global, circuit: &mut Circuit, x: &Bits, y: &Bits) -> Result<Bits, AllocError>
    requires left { AreThere (length circuit.old.nodes) x.now }
    requires right { AreThere (length circuit.old.nodes) y.now }
    requires same_width { length x.now ≡ length y.now }
    ensures made { IfOk result (λ bits. (bits, circuit.new.nodes) ≡ bits_xor_made circuit.old.nodes x.now y.now) }
    ensures worth { IfOk result (λ bits. MakesBits circuit.old.nodes (bits, circuit.new.nodes) (length x.now) (2 ^ 15) (λ v. bit_xor (number v x.now) (number v y.now))) }
    ensures kept { AddsNodes circuit.old.nodes circuit.new.nodes (2 ^ 15) }
{
    let bits = pairwise(alloc, circuit, Pairing::Xor, x.as_slice(), y.as_slice())?;
    Ok(Bits::from_vec(bits))
}

/// `x` where the choice, a gate of the circuit, is true, else `y`: two strings of the same width, 1 to 64.
pub fn mux(
    alloc: Global,
    circuit: &mut Circuit,
    choice: Gate,
    x: &Bits,
    y: &Bits,
) -> Result<Bits, AllocError>
    requires choice { choice.number < length circuit.old.nodes }
    requires left { AreThere (length circuit.old.nodes) x.now }
    requires right { AreThere (length circuit.old.nodes) y.now }
    requires same_width { length x.now ≡ length y.now }
    ensures made { IfOk result (λ bits. (bits, circuit.new.nodes) ≡ mux_made circuit.old.nodes choice x.now y.now) }
    ensures worth { IfOk result (λ bits. MakesBits circuit.old.nodes (bits, circuit.new.nodes) (length x.now) (2 ^ 15) (λ v. cond (gate_value v choice) (number v x.now) (number v y.now))) }
    ensures kept { AddsNodes circuit.old.nodes circuit.new.nodes (2 ^ 15) }
{
    let make = Pairing::Choose(choice);
    let bits = pairwise(alloc, circuit, make, x.as_slice(), y.as_slice())?;
    Ok(Bits::from_vec(bits))
}

/// One bit: 1 where two strings of the same width, 1 to 64, are equal, else 0.
pub fn eq(alloc: Global, circuit: &mut Circuit, x: &Bits, y: &Bits) -> Result<Bits, AllocError>
    requires left { AreThere (length circuit.old.nodes) x.now }
    requires right { AreThere (length circuit.old.nodes) y.now }
    requires same_width { length x.now ≡ length y.now }
    ensures made { IfOk result (λ bits. (bits, circuit.new.nodes) ≡ eq_made circuit.old.nodes x.now y.now) }
    ensures worth { IfOk result (λ bits. MakesBits circuit.old.nodes (bits, circuit.new.nodes) 1 (2 ^ 15) (λ v. equal_bit (number v x.now) (number v y.now))) }
    ensures kept { AddsNodes circuit.old.nodes circuit.new.nodes (2 ^ 15) }
{
    let gate = same(circuit, x.as_slice(), y.as_slice())?;
    Bits::one(alloc, gate)
}

/// One bit: 1 where `x` is below `y`, two strings of the same width, 1 to 64, with no sign, else 0. There is no carry out of `x + not y +
/// 1` then.
pub fn lt(alloc: Global, circuit: &mut Circuit, x: &Bits, y: &Bits) -> Result<Bits, AllocError>
    requires left { AreThere (length circuit.old.nodes) x.now }
    requires right { AreThere (length circuit.old.nodes) y.now }
    requires same_width { length x.now ≡ length y.now }
    ensures made { IfOk result (λ bits. (bits, circuit.new.nodes) ≡ lt_made circuit.old.nodes x.now y.now) }
    ensures worth { IfOk result (λ bits. MakesBits circuit.old.nodes (bits, circuit.new.nodes) 1 (2 ^ 15) (λ v. below_bit (number v x.now) (number v y.now))) }
    ensures kept { AddsNodes circuit.old.nodes circuit.new.nodes (2 ^ 15) }
{
    let carry_in = circuit.constant(true);
    let flipped = flip(alloc, circuit, y.as_slice())?;
    let carry = last_carry(circuit, carry_in, x.as_slice(), flipped.as_slice())?;
    Bits::one(alloc, circuit.not(carry))
}

/// `x` moved up by the number `y`, zeros moved in: 0 where that is the width of `x` or more. Each may have any width, 1 to
/// 64.
pub fn shl(alloc: Global, circuit: &mut Circuit, x: &Bits, y: &Bits) -> Result<Bits, AllocError>
    requires left { AreThere (length circuit.old.nodes) x.now }
    requires right { AreThere (length circuit.old.nodes) y.now }
    ensures made { IfOk result (λ bits. (bits, circuit.new.nodes) ≡ shl_made circuit.old.nodes x.now y.now) }
    ensures worth { IfOk result (λ bits. MakesBits circuit.old.nodes (bits, circuit.new.nodes) (length x.now) (2 ^ 15) (λ v. left_shifted (length x.now) (number v x.now) (number v y.now))) }
    ensures kept { AddsNodes circuit.old.nodes circuit.new.nodes (2 ^ 15) }
{
    let bits = shift(alloc, circuit, Direction::Up, x.as_slice(), y.as_slice())?;
    Ok(Bits::from_vec(bits))
}

/// `x` moved down by the number `y`, zeros moved in: 0 where that is the width of `x` or more. Each may have any width, 1 to
/// 64.
pub fn shr(alloc: Global, circuit: &mut Circuit, x: &Bits, y: &Bits) -> Result<Bits, AllocError>
    requires left { AreThere (length circuit.old.nodes) x.now }
    requires right { AreThere (length circuit.old.nodes) y.now }
    ensures made { IfOk result (λ bits. (bits, circuit.new.nodes) ≡ shr_made circuit.old.nodes x.now y.now) }
    ensures worth { IfOk result (λ bits. MakesBits circuit.old.nodes (bits, circuit.new.nodes) (length x.now) (2 ^ 15) (λ v. right_shifted (length x.now) (number v x.now) (number v y.now))) }
    ensures kept { AddsNodes circuit.old.nodes circuit.new.nodes (2 ^ 15) }
{
    let bits = shift(alloc, circuit, Direction::Down, x.as_slice(), y.as_slice())?;
    Ok(Bits::from_vec(bits))
}

/// `x` above `y`, which together have 2 to 64 bits.
pub fn cat(alloc: Global, circuit: &mut Circuit, x: &Bits, y: &Bits) -> Result<Bits, AllocError>
    requires left { AreThere (length circuit.old.nodes) x.now }
    requires right { AreThere (length circuit.old.nodes) y.now }
    requires most { length x.now + length y.now ≤ 64 }
    ensures made { IfOk result (λ bits. (bits, circuit.new.nodes) ≡ cat_made circuit.old.nodes x.now y.now) }
    ensures worth { IfOk result (λ bits. MakesBits circuit.old.nodes (bits, circuit.new.nodes) (length x.now + length y.now) 0 (λ v. joined (number v x.now) (length y.now) (number v y.now))) }
    ensures same { circuit.new ≡ circuit.old }
{
    let mut bits = Vec::from_slice(alloc, y.as_slice())?;
    bits.extend_from_slice(x.as_slice())?;
    Ok(Bits::from_vec(bits))
}

/// Bits `k` to `h` of a string, which are `h - k + 1` bits: `k` is at most `h`, and `h` is below the width.
pub fn cut(
    alloc: Global,
    circuit: &mut Circuit,
    x: &Bits,
    h: u32,
    k: u32,
) -> Result<Bits, AllocError>
    requires there { AreThere (length circuit.old.nodes) x.now }
    requires order { k ≤ h }
    requires within { h < length x.now }
    ensures made { IfOk result (λ bits. (bits, circuit.new.nodes) ≡ cut_made circuit.old.nodes x.now h k) }
    ensures worth { IfOk result (λ bits. MakesBits circuit.old.nodes (bits, circuit.new.nodes) (h - k + 1) 0 (λ v. bits_between (number v x.now) h k)) }
    ensures same { circuit.new ≡ circuit.old }
{
    let bits = Vec::from_slice(alloc, &x.as_slice()[k as usize..=h as usize])?;
    Ok(Bits::from_vec(bits))
}

/// A string widened by zeros to `to` bits, from its own width to 64.
pub fn ext(alloc: Global, circuit: &mut Circuit, x: &Bits, to: u32) -> Result<Bits, AllocError>
    requires there { AreThere (length circuit.old.nodes) x.now }
    requires wider { length x.now ≤ to }
    requires most { to ≤ 64 }
    ensures made { IfOk result (λ bits. (bits, circuit.new.nodes) ≡ ext_made circuit.old.nodes x.now to) }
    ensures worth { IfOk result (λ bits. MakesBits circuit.old.nodes (bits, circuit.new.nodes) to 0 (λ v. number v x.now)) }
    ensures same { circuit.new ≡ circuit.old }
{
    let mut bits = Vec::from_slice(alloc, x.as_slice())?;
    bits.resize(to as usize, ZERO)?;
    Ok(Bits::from_vec(bits))
}

/// A string widened by copies of its top bit to `to` bits, from its own width to 64.
pub fn sext(alloc: Global, circuit: &mut Circuit, x: &Bits, to: u32) -> Result<Bits, AllocError>
    requires there { AreThere (length circuit.old.nodes) x.now }
    requires wider { length x.now ≤ to }
    requires most { to ≤ 64 }
    ensures made { IfOk result (λ bits. (bits, circuit.new.nodes) ≡ sext_made circuit.old.nodes x.now to) }
    ensures worth { IfOk result (λ bits. MakesBits circuit.old.nodes (bits, circuit.new.nodes) to 0 (λ v. sign_extended (number v x.now) (length x.now) to)) }
    ensures same { circuit.new ≡ circuit.old }
{
    let gates = x.as_slice();
    let top = gates[gates.len() - 1];
    let mut bits = Vec::from_slice(alloc, gates)?;
    bits.resize(to as usize, top)?;
    Ok(Bits::from_vec(bits))
}
