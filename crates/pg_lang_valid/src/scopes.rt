//! Names that mean nothing where they stand.
//!
//! The sixth class of validity. A name in an expression means a field of the pattern, or a let that is visible: from
//! the statement behind the let to the end of its block. The statements are gone over in the order of the text with a
//! list of the visible lets; a let is put at its end, and the end of a block cuts it back, which gives the list as it
//! was since lets are only ever put behind it (`kept`). That no two lets of a body, and no let and field, have one name
//! was seen before, so a name that is known means one thing. The list alone takes memory.

ghost use Rattle.std.specs.Prelude.{◌≡◌, ◌||◌, if◌then◌else◌, length, take, map, None, Some, IfOk, OnOk};
ghost use Rattle.std.specs.Option.{option_map, option_copied};
ghost use Rattle.pg_lang_valid.specs.Twice.{is_among, is_field, first_of_two};
ghost use Rattle.pg_lang_valid.specs.Scopes.{unknown_name, sight_of, seen_in_order, unknown_in, name_unknown};

use crate::names::NameList;
use crate::twice::is_field;
use pg_ast::{Expr, Instr, Name, Stmt};
use std::alloc::{AllocError, Global};

/// The name itself, where it is neither a field nor a visible let.
fn unknown<'m>(pattern: &[u8], name: &'m Name, scope: &NameList<'_>) -> Option<&'m [u8]>
    ensures { option_copied result ≡ (if is_field pattern.now name.now.bytes || is_among scope.now name.now.bytes then None else Some name.now.bytes) }
{
    if is_field(pattern, name.as_bytes()) || scope.contains(name.as_bytes()) {
        None
    } else {
        Some(name.as_bytes())
    }
}

/// The first of two names that may be there.
fn first_of_two<'m>(first: Option<&'m [u8]>, second: Option<&'m [u8]>) -> Option<&'m [u8]>
    ensures { option_copied result ≡ first_of_two (option_copied first.entry) (option_copied second.entry) }
{
    match first {
        None => second,
        Some(name) => Some(name),
    }
}

/// The first name of an expression that is neither a field of the pattern nor a visible let.
#[tactic(auto, using(crate::proofs::CheckExprEquations::unknown_name_rules))]
fn unknown_name<'m>(pattern: &[u8], expr: &'m Expr, scope: &NameList<'_>) -> Option<&'m [u8]>
    ensures { option_copied result ≡ unknown_name pattern.now expr.now scope.now }
{
    match expr {
        Expr::Lit(_, _) | Expr::Pc | Expr::Mode | Expr::Rel | Expr::Bound => None,
        Expr::Name(name) => unknown(pattern, name, scope),
        Expr::Load(e) | Expr::Not(e) | Expr::Cut(e, _, _) | Expr::Ext(e, _) | Expr::Sext(e, _) =>
            unknown_name(pattern, e.get(), scope),
        Expr::Bin(_, x, y) | Expr::Cat(x, y) => first_of_two(
            unknown_name(pattern, x.get(), scope),
            unknown_name(pattern, y.get(), scope),
        ),
        Expr::Sel(c, x, y) => first_of_two(
            unknown_name(pattern, c.get(), scope),
            first_of_two(
                unknown_name(pattern, x.get(), scope),
                unknown_name(pattern, y.get(), scope),
            ),
        ),
    }
}

/// The first name of a statement that is neither a field nor a visible let. A let is visible after it.
#[cycle(sight)]
#[tactic(auto, using(crate::proofs::CheckStmtEquations::sight_of_rules))]
fn unknown_in_stmt<'m>(
    pattern: &[u8],
    stmt: &'m Stmt,
    scope: &mut NameList<'m>,
) -> Result<Option<&'m [u8]>, AllocError>
    ensures unknown { IfOk result (λ found. option_copied found ≡ (sight_of pattern.now stmt.now scope.old).unknown) }
    ensures after { OnOk result (scope.new ≡ (sight_of pattern.now stmt.now scope.old).after) }
    ensures kept { OnOk result (take (length scope.old) scope.new ≡ scope.old) }
{
    match stmt {
        Stmt::Let(name, e) => {
            let found = unknown_name(pattern, e, scope);
            match scope.push(name.as_bytes()) {
                Err(error) => Err(error),
                Ok(()) => Ok(found),
            }
        }
        Stmt::Store(a, e) => Ok(first_of_two(
            unknown_name(pattern, a, scope),
            unknown_name(pattern, e, scope),
        )),
        Stmt::Pc(e) | Stmt::Mode(e) | Stmt::Rel(e) | Stmt::Bound(e) => Ok(unknown_name(
            pattern, e, scope,
        )),
        Stmt::Trap => Ok(None),
        Stmt::If(c, held, other) => {
            let in_test = unknown_name(pattern, c, scope);
            match unknown_in_block(pattern, held.as_slice(), scope) {
                Err(error) => Err(error),
                Ok(in_held) => match other {
                    None => Ok(first_of_two(in_test, first_of_two(in_held, None))),
                    Some(stmts) => match unknown_in_block(pattern, stmts.as_slice(), scope) {
                        Err(error) => Err(error),
                        Ok(in_other) => Ok(first_of_two(in_test, first_of_two(in_held, in_other))),
                    },
                },
            }
        }
    }
}

/// The same for the statements of a block, whose lets end with it.
#[cycle(sight)]
fn unknown_in_block<'m>(
    pattern: &[u8],
    stmts: &'m [Stmt],
    scope: &mut NameList<'m>,
) -> Result<Option<&'m [u8]>, AllocError>
    ensures unknown { IfOk result (λ found. option_copied found ≡ seen_in_order (map (sight_of pattern.now) stmts.now) scope.old) }
    ensures after { OnOk result (scope.new ≡ scope.old) }
{
    let outer = scope.len();
    let found = match unknown_in_order(pattern, stmts, scope) {
        Err(error) => return Err(error),
        Ok(found) => found,
    };
    scope.truncate(outer);
    Ok(found)
}

/// The same for statements in the order of the text.
#[cycle(sight)]
#[tactic(auto, using(crate::proofs::NameLemmas::begun_twice), unfolding(crate::specs::Scopes::seen_in_order))]
fn unknown_in_order<'m>(
    pattern: &[u8],
    stmts: &'m [Stmt],
    scope: &mut NameList<'m>,
) -> Result<Option<&'m [u8]>, AllocError>
    ensures unknown { IfOk result (λ found. option_copied found ≡ seen_in_order (map (sight_of pattern.now) stmts.now) scope.old) }
    ensures kept { OnOk result (take (length scope.old) scope.new ≡ scope.old) }
{
    for stmt in stmts {
        match unknown_in_stmt(pattern, stmt, scope) {
            Err(error) => return Err(error),
            Ok(None) => {}
            Ok(Some(name)) => return Ok(Some(name)),
        }
    }
    Ok(None)
}

/// The first name of an instruction that is neither a field nor a visible let.
fn unknown_in(alloc: Global, instr: &Instr) -> Result<Option<&[u8]>, AllocError>
    ensures { IfOk result (λ found. option_copied found ≡ unknown_in instr.now) }
{
    let mut scope = NameList::new(alloc);
    unknown_in_block(
        instr.pattern.bytes.as_slice(),
        instr.body.as_slice(),
        &mut scope,
    )
}

/// The first instruction with such a name, and its first such name.
#[tactic(auto, unfolding(crate::specs::Scopes::name_unknown))]
pub fn name_unknown(alloc: Global, instrs: &[Instr]) -> Result<Option<(usize, &[u8])>, AllocError>
    ensures { IfOk result (λ found. option_map (λ f. (f.0, f.1.now)) found ≡ name_unknown 0 instrs.now) }
{
    for (k, instr) in instrs.iter().enumerate() {
        match unknown_in(alloc, instr) {
            Err(error) => return Err(error),
            Ok(Some(name)) => return Ok(Some((k, name))),
            Ok(None) => {}
        }
    }
    Ok(None)
}
