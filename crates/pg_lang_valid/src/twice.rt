//! Lets that have a name twice.
//!
//! The second half of the third class of validity; the first, on the names of instructions, is in `classes`. A let may
//! not have the name of a field of its instruction, nor that of an earlier let, also where the earlier one is no more
//! visible: so a name means one thing in a whole body. The names of lets are gathered first, in the order of the text,
//! and then gone over. The lists of names take memory, and nothing else does.

ghost use Rattle.std.specs.Prelude.{◌≡◌, [], ◌++◌, map, IfOk, OnOk};
ghost use Rattle.std.specs.Option.{option_copied};
ghost use Rattle.pg_lang_valid.specs.Twice.{all_names, let_names, is_field, let_twice, let_twice_in, let_twice_among};

use crate::names::NameList;
use pg_ast::{Instr, Stmt};
use pg_lang_meaning::field_of;
use std::alloc::{AllocError, Global};

/// Whether a name is a field of a pattern.
pub fn is_field(pattern: &[u8], name: &[u8]) -> bool
    ensures { result ≡ is_field pattern.now name.now }
{
    field_of(pattern, name).is_some()
}

/// Adds the names of the lets of a statement, in the order of the text.
#[cycle(lets)]
#[tactic(auto, using(crate::proofs::CheckStmtEquations::let_names_rules, crate::proofs::NameLemmas::name_rules))]
fn add_lets<'m>(stmt: &'m Stmt, names: &mut NameList<'m>) -> Result<(), AllocError>
    ensures { OnOk result (names.new ≡ names.old ++ let_names stmt.now) }
{
    match stmt {
        Stmt::Let(name, _) => names.push(name.as_bytes()),
        Stmt::Store(_, _)
        | Stmt::Pc(_)
        | Stmt::Mode(_)
        | Stmt::Rel(_)
        | Stmt::Bound(_)
        | Stmt::Trap => Ok(()),
        Stmt::If(_, held, other) => {
            match add_all_lets(held.as_slice(), names) {
                Err(e) => return Err(e),
                Ok(()) => {}
            }
            match other {
                None => Ok(()),
                Some(stmts) => add_all_lets(stmts.as_slice(), names),
            }
        }
    }
}

/// Adds the names of the lets of some statements, in the order of the text.
#[cycle(lets)]
#[tactic(auto, using(crate::proofs::CheckStmtEquations::let_names_rules, crate::proofs::NameLemmas::name_rules))]
fn add_all_lets<'m>(stmts: &'m [Stmt], names: &mut NameList<'m>) -> Result<(), AllocError>
    ensures { OnOk result (names.new ≡ names.old ++ all_names (map let_names stmts.now)) }
{
    for stmt in stmts {
        match add_lets(stmt, names) {
            Err(e) => return Err(e),
            Ok(()) => {}
        }
    }
    Ok(())
}

/// The first of these let names that an earlier one, or a field of the pattern, has.
#[tactic(auto, unfolding(crate::specs::Twice::let_twice))]
fn let_twice<'m>(
    alloc: Global,
    pattern: &[u8],
    names: &[&'m [u8]],
) -> Result<Option<&'m [u8]>, AllocError>
    ensures { IfOk result (λ found. option_copied found ≡ let_twice pattern.now [] (map (λ n. n.now) names.now)) }
{
    let mut seen = NameList::new(alloc);
    for name in names {
        if is_field(pattern, *name) || seen.contains(*name) {
            return Ok(Some(*name));
        }
        match seen.push(*name) {
            Err(e) => return Err(e),
            Ok(()) => {}
        }
    }
    Ok(None)
}

/// The first let name of an instruction that an earlier let, or a field, has.
fn let_twice_in(alloc: Global, instr: &Instr) -> Result<Option<&[u8]>, AllocError>
    ensures { IfOk result (λ found. option_copied found ≡ let_twice_in instr.now) }
{
    let mut names = NameList::new(alloc);
    match add_all_lets(instr.body.as_slice(), &mut names) {
        Err(e) => Err(e),
        Ok(()) => let_twice(alloc, instr.pattern.bytes.as_slice(), names.as_slice()),
    }
}

/// The first let name that is given twice, in the first of the instructions that has one.
#[tactic(auto, unfolding(crate::specs::Twice::let_twice_among))]
pub fn let_twice_among(alloc: Global, instrs: &[Instr]) -> Result<Option<&[u8]>, AllocError>
    ensures { IfOk result (λ found. option_copied found ≡ let_twice_among instrs.now) }
{
    for instr in instrs {
        match let_twice_in(alloc, instr) {
            Err(e) => return Err(e),
            Ok(Some(name)) => return Ok(Some(name)),
            Ok(None) => {}
        }
    }
    Ok(None)
}
