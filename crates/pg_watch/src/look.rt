//! What is left of a clause under a trail: the one place where its literals are looked through.
//!
//! A clause with a literal that is true, or with two that are unset, is open: nothing follows from it. Where all but one are
//! false, that one follows; where all are, the trail contradicts it.

ghost use Rattle.std.specs.Prelude.{◌≡◌, ◌≢◌, None, Some, false, IfNone, IfSome, IsTrue, Contains};
ghost use Rattle.pg_watch.specs.Trail.{value_of, AreFalseBut};
ghost use Rattle.pg_cnf.specs.Literals.{IsClause, AreLiterals};
ghost use Rattle.pg_watch.specs.Watching.{HasTrue};
ghost use Rattle.pg_watch.specs.Looks.{IsSeen, look_from};

use crate::assignment::Assignment;

/// What is left of a clause.
#[derive(Clone, Copy)]
pub enum Look {
    /// It is neither unit nor falsified.
    Open,
    /// It is unit in a literal.
    Unit(i32),
    /// All its literals are false.
    Falsified,
}

/// What is left of a clause under a trail. It takes time in the number of literals, and less where one is true.
pub fn look_at(trail: &Assignment, clause: &[i32]) -> Look
    requires { IsClause trail.now.variables clause.now }
    ensures { IsSeen trail.now.literals clause.now result }
{
    look_through(trail, clause)
}

/// What is seen when the literals of a clause are looked through, up to one that is true or the second that is unset.
fn look_through(trail: &Assignment, clause: &[i32]) -> Look
    requires { AreLiterals trail.now.variables clause.now }
    ensures { result ≡ look_from trail.now.literals None clause.now }
{
    let mut found = None;
    for &lit in clause {
        match trail.value(lit) {
            Some(true) => return Look::Open,
            Some(false) => {}
            None => match found {
                None => found = Some(lit),
                Some(_) => return Look::Open,
            },
        }
    }
    match found {
        None => Look::Falsified,
        Some(lit) => Look::Unit(lit),
    }
}

/// Whether a literal of a clause is true.
pub fn has_true(trail: &Assignment, clause: &[i32]) -> bool
    requires { AreLiterals trail.now.variables clause.now }
    ensures { IsTrue result → HasTrue trail.now.literals clause.now }
{
    for &lit in clause {
        if let Some(true) = trail.value(lit) {
            return true;
        }
    }
    false
}

/// The first literal of a clause that is not false, but for one.
pub fn open_literal(trail: &Assignment, clause: &[i32], but: i32) -> Option<i32>
    requires { AreLiterals trail.now.variables clause.now }
    ensures none { IfNone result (AreFalseBut trail.now.literals but clause.now) }
    ensures there { IfSome result (λ lit. Contains clause.now lit) }
    ensures other { IfSome result (λ lit. lit ≢ but) }
    ensures not_false { IfSome result (λ lit. value_of trail.now.literals lit ≢ Some false) }
{
    for &lit in clause {
        match trail.value(lit) {
            Some(false) => {}
            _ => {
                if lit != but {
                    return Some(lit);
                }
            }
        }
    }
    None
}
