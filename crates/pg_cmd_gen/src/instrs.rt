//! Instructions, and descriptions.

ghost use Rattle.std.specs.Prelude.{◌≡◌, ℕ, ◌%◌, ◌<◌, ◌≤◌, ◌++◌, length, slice_get, Some, IfOk, OnOk};
ghost use Rattle.pg_ast.specs.declared.tree.Instr.{Instr as Instrs};
ghost use Rattle.pg_cmd_gen.specs.Bodies.{body_of};
ghost use Rattle.pg_cmd_gen.specs.Draws.{state_behind};
ghost use Rattle.pg_cmd_gen.specs.Generated.{IsGenerated, IsInstrAt, bits_text, name_at, pattern_at, most_instructions};

use crate::bodies::body;
use crate::draws::Draws;
use pg_ast::{Desc, Instr, InstrList, Name, PatternText};
use pg_text::dec;
use sqlite_items::Items;
use std::alloc::{AllocError, Global};

/// How many bodies a draw chooses from.
const BODIES: u32 = 6;

/// The bytes of the name of the instruction of this number.
fn name_bytes(alloc: Global, k: u32) -> Result<Items<u8>, AllocError>
    ensures { IfOk result (λ bytes. bytes ≡ name_at k) }
{
    let mut bytes = Vec::new(alloc);
    bytes.push(b'g')?;
    bytes.extend_from_slice(dec(u64::from(k)).as_slice())?;
    Ok(Items::from_vec(bytes))
}

/// Puts the last `n` bits of a number behind these bytes, as the digits 0 and 1, the highest first.
#[tactic(auto, unfolding(crate::specs::Generated::bits_text))]
fn put_bits(bytes: &mut Vec<u8>, n: u32, number: u32) -> Result<(), AllocError>
    ensures { OnOk result (bytes.new.items ≡ bytes.old.items ++ bits_text n number) }
{
    if n == 0 {
        return Ok(());
    }
    put_bits(bytes, n - 1, number / 2)?;
    bytes.push(b'0' + (number % 2) as u8)?;
    Ok(())
}

/// The bytes of the pattern of the instruction of this number.
fn pattern_bytes(alloc: Global, k: u32) -> Result<Items<u8>, AllocError>
    requires { k < most_instructions }
    ensures { IfOk result (λ bytes. bytes ≡ pattern_at k) }
{
    let mut bytes = Vec::new(alloc);
    put_bits(&mut bytes, 8, k + 1)?;
    bytes.extend_from_slice(b"xxxxxxxxyyyyyyyyzzzzzzzz")?;
    Ok(Items::from_vec(bytes))
}

/// The instruction of this number, whose body a draw chooses.
fn instr(alloc: Global, k: u32, draw: u32) -> Result<Instr, AllocError>
    requires { k < most_instructions }
    ensures name { IfOk result (λ i. i.name.bytes ≡ name_at k) }
    ensures pattern { IfOk result (λ i. i.pattern.bytes ≡ pattern_at k) }
    ensures body { IfOk result (λ i. i.body ≡ body_of (draw % 6)) }
{
    let name = Name::new(name_bytes(alloc, k)?);
    let pattern = PatternText::new(pattern_bytes(alloc, k)?);
    let body = body(alloc, draw % BODIES)?;
    Ok(Instr::new(name, pattern, body))
}

/// So many instructions, with a draw for each.
fn instrs(alloc: Global, draws: &mut Draws, count: u32) -> Result<InstrList, AllocError>
    requires { count ≤ most_instructions }
    ensures many { IfOk result (λ instrs. length instrs ≡ count) }
    ensures each { IfOk result (λ instrs. (k : ℕ) (i : Instrs) → slice_get instrs k ≡ Some i → IsInstrAt draws.old.state k i) }
    ensures draws { OnOk result (draws.new.state ≡ state_behind draws.old.state count) }
{
    let mut instrs = Items::new(alloc);
    for k in 0..count {
        let draw = draws.next();
        let instr = instr(alloc, k, draw)?;
        instrs.push(instr)?;
    }
    Ok(instrs)
}

/// The description with so many instructions, with a draw for each.
pub fn desc(alloc: Global, draws: &mut Draws, count: u32) -> Result<Desc, AllocError>
    requires { count ≤ most_instructions }
    ensures desc { IfOk result (λ d. IsGenerated draws.old.state count d) }
    ensures draws { OnOk result (draws.new.state ≡ state_behind draws.old.state count) }
{
    let instrs = instrs(alloc, draws, count)?;
    Ok(Desc {
        word: 32,
        address: 8,
        size: 128,
        causes: false,
        instrs,
    })
}
