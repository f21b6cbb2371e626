//! Literals, and whether they may be assigned.

ghost use Rattle.std.specs.Prelude.{◌≡◌, ◌<◌, ◌^◌, IfSome, pos, neg_ℤ};
ghost use Rattle.pg_cnf.specs.Literals.{IsLiteral};
ghost use Rattle.pg_sat_guide.specs.Over.{IsOver};
ghost use Rattle.pg_sat_guide.specs.Free.{IsFree};

use pg_watch::Watches;

/// The literal of a variable that is not negated.
pub fn literal_of(variable: u32) -> i32
    requires { variable < 2 ^ 31 }
    ensures { result ≡ pos variable }
{
    variable as i32
}

/// The negation of a literal.
pub fn negation(literal: i32) -> i32
    requires { IsLiteral 2147483647 literal }
    ensures { result ≡ neg_ℤ literal }
{
    -literal
}

/// The literal of a variable, or its negation, where there is such a variable and it is unset.
pub fn free_literal(watches: &Watches, variables: u32, variable: u32, positive: bool) -> Option<i32>
    requires over { IsOver variables watches.now.clauses watches.now.trail }
    ensures { IfSome result (IsFree variables watches.now.trail.literals) }
{
    if variable == 0 {
        return None;
    }
    if variable > variables {
        return None;
    }
    let literal = literal_of(variable);
    match watches.value(literal) {
        Some(_) => None,
        None => {
            if positive {
                Some(literal)
            } else {
                Some(negation(literal))
            }
        }
    }
}

/// The first of some literals that is unset, if one is: a number that is no literal counts as set.
pub fn first_free(watches: &Watches, variables: u32, literals: &[i32]) -> Option<i32>
    requires over { IsOver variables watches.now.clauses watches.now.trail }
    ensures { IfSome result (IsFree variables watches.now.trail.literals) }
{
    for literal in literals {
        let variable = literal.unsigned_abs();
        let positive = *literal > 0;
        if let Some(free) = free_literal(watches, variables, variable, positive) {
            return Some(free);
        }
    }
    None
}

/// Whether a literal is false, as a number that is no literal is.
pub fn is_false(watches: &Watches, variables: u32, literal: i32) -> bool
    requires over { IsOver variables watches.now.clauses watches.now.trail }
{
    let variable = literal.unsigned_abs();
    if variable == 0 {
        return true;
    }
    if variable > variables {
        return true;
    }
    match watches.value(literal_of(variable)) {
        Some(value) => value != (literal > 0),
        None => false,
    }
}
