//! Guards are put into a description.

ghost use Rattle.std.specs.Prelude.{◌≡◌, [], ◌∷◌, length, IfOk};
ghost use Rattle.pg_out_guarded.specs.Guards.{guard, IsGuarded, IsGuardedIf, AreGuarded, IsGuardedDesc};

use pg_ast::{Desc, Expr, Instr, InstrList, Stmt, StmtList};
use std::alloc::{AllocError, Global};

/// `if mode { trap; }`.
fn guard(alloc: Global) -> Result<Stmt, AllocError>
    ensures { IfOk result (λ stmt. stmt ≡ guard) }
{
    let mut held = StmtList::new(alloc);
    held.push(Stmt::Trap)?;
    Ok(Stmt::If(Expr::Mode, held, None))
}

/// The statements of a body with the guard put first.
fn body_with_guard(alloc: Global, body: StmtList) -> Result<StmtList, AllocError>
    ensures { IfOk result (λ longer. longer ≡ guard ∷ body) }
{
    let mut longer = StmtList::new(alloc);
    longer.push(guard(alloc)?)?;
    longer.append(body)?;
    Ok(longer)
}

/// An instruction with the guard put first.
fn with_guard(alloc: Global, instr: Instr) -> Result<Instr, AllocError>
    ensures { IfOk result (IsGuarded instr) }
{
    let Instr {
        name,
        pattern,
        body,
    } = instr;
    let longer = body_with_guard(alloc, body)?;
    Ok(Instr::new(name, pattern, longer))
}

/// An instruction, with the guard put first where it is to be.
fn with_guard_if(alloc: Global, is_marked: bool, instr: Instr) -> Result<Instr, AllocError>
    ensures { IfOk result (IsGuardedIf is_marked instr) }
{
    if is_marked {
        with_guard(alloc, instr)
    } else {
        Ok(instr)
    }
}

/// The same description, but that the instructions with a mark begin with `if mode { trap; }`; there is a mark for each instruction.
pub fn guarded(alloc: Global, desc: &Desc, marks: &[bool]) -> Result<Desc, AllocError>
    requires { length marks.now ≡ length desc.now.instrs }
    ensures { IfOk result (IsGuardedDesc marks.now desc.now) }
{
    let copy = desc.copied(alloc)?;
    let instrs = instrs_guarded(alloc, copy.instrs, marks)?;
    Ok(Desc {
        word: copy.word,
        address: copy.address,
        size: copy.size,
        causes: copy.causes,
        instrs,
    })
}

/// These instructions, those with a mark with the guard put first. There are few, so each is taken from the front.
fn instrs_guarded(alloc: Global, instrs: InstrList, marks: &[bool]) -> Result<InstrList, AllocError>
    requires { length marks.now ≡ length instrs }
    ensures { IfOk result (AreGuarded marks.now instrs) }
{
    let mut left = instrs;
    let mut all = InstrList::new(alloc);
    for is_marked in marks {
        let instr = left.remove(0);
        all.push(with_guard_if(alloc, *is_marked, instr)?)?;
    }
    Ok(all)
}
