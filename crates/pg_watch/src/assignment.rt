//! What is set: literals in order, beside each why, and a table of the value of every literal.
//!
//! The table has a place for each literal and not for each variable, so that the value of a literal is one read. It is only
//! a second form of the list: contracts see the list alone, in which a literal is true where it stands, and false where its
//! negation does. Propagation reads values and pushes; `cut` is what undoes.

ghost use Rattle.std.specs.Prelude.{◌≡◌, ◌+◌, ◌<◌, ◌≤◌, ◌^◌, [], length, take, None, false, IfOk, OnOk, OnErr, slice_index_or, slice_set, ◌-◌, neg_ℤ, pos, ℕ};
ghost use Rattle.pg_watch.specs.Assigned.{IsAssigned};
ghost use Rattle.pg_cnf.specs.Literals.{IsLiteral};
ghost use Rattle.pg_watch.specs.Trail.{value_of, pushed, cut, IsAssignment};
ghost use Rattle.pg_watch.specs.Places.{place_of};

use std::alloc::{AllocError, Global};
use std::marker::Model;

/// The literals that are set, in order, each with its reason. No variable is there twice.
#[derive(Drop)]
pub struct Assignment {
    variables: u32,
    literals: Vec<i32>,
    reasons: Vec<Option<u32>>,
    values: Vec<Option<bool>>,
    wheres: Vec<u32>,
}

impl Model for Assignment {
    ghost use Rattle.pg_watch.specs.Trail.{Trail};

    ghost Value = { Trail };

    ghost use Rattle.pg_watch.specs.Table.{IsTable};

    ghost view = { λ a. record { variables = a.variables; literals = a.literals.items; reasons = a.reasons.items } };

    ghost invariant = { λ a. IsTable a.variables a.values.items a.wheres.items a.literals.items a.reasons.items };
}

impl Assignment {
    /// Nothing set, of so many variables.
    pub fn new(alloc: Global, variables: u32) -> Result<Assignment, AllocError>
        requires { variables < 2 ^ 31 }
        ensures variables { IfOk result (λ trail. trail.variables ≡ variables) }
        ensures literals { IfOk result (λ trail. trail.literals ≡ []) }
        ensures reasons { IfOk result (λ trail. trail.reasons ≡ []) }
    {
        let places = 2 * variables as usize + 2;
        Ok(Assignment {
            variables,
            literals: Vec::new(alloc),
            reasons: Vec::new(alloc),
            values: Vec::from_elem(alloc, None, places)?,
            wheres: Vec::from_elem(alloc, 0, variables as usize + 1)?,
        })
    }

    /// How many variables there are.
    pub fn variables(&self) -> u32
        ensures { result ≡ self.now.variables }
    {
        self.variables
    }

    /// How many literals are set.
    pub fn len(&self) -> usize
        ensures len { result ≡ length self.now.literals }
        ensures kept { IsAssignment self.now }
    {
        self.literals.len()
    }

    /// The literals that are set, in order.
    pub fn literals(&self) -> &[i32]
        ensures { result.now ≡ self.now.literals }
    {
        self.literals.as_slice()
    }

    /// The negation of the literal at a place.
    pub fn negation_at(&self, place: usize) -> i32
        requires { place < length self.now.literals }
        ensures { result ≡ neg_ℤ (slice_index_or self.now.literals place (pos 0)) }
    {
        let lit = self.literals[place];
        negation(lit)
    }

    /// The reason of the literal at a place.
    pub fn reason(&self, place: usize) -> Option<u32>
        requires { place < length self.now.literals }
        ensures { result ≡ slice_index_or self.now.reasons place None }
    {
        self.reasons[place]
    }

    /// The value of a literal, in constant time.
    pub fn value(&self, lit: i32) -> Option<bool>
        requires { IsLiteral self.now.variables lit }
        ensures { result ≡ value_of self.now.literals lit }
    {
        self.values[place_of(lit)]
    }

    /// A place before which neither a literal nor its negation stands: its own where it is set.
    pub fn place(&self, lit: i32) -> usize
        requires { IsLiteral self.now.variables lit }
        ensures { (n : ℕ) → n ≤ result → value_of (take n self.now.literals) lit ≡ None }
    {
        self.wheres[lit.unsigned_abs() as usize] as usize
    }

    /// Whether a literal that is set has no reason. It takes time in those before the first of them.
    pub fn has_assigned(&self) -> bool
        ensures { result ≡ false → (d : ℕ) → IsAssigned self.now d → ⊥ }
    {
        for reason in self.reasons.as_slice() {
            if reason.is_none() {
                return true;
            }
        }
        false
    }

    /// The place of the last literal that has no reason, or 0. It takes time in the literals behind it.
    pub fn last_assigned(&self) -> usize
        ensures { (d : ℕ) → IsAssigned self.now d → d ≤ result }
    {
        let mut place = self.reasons.len();
        while place > 0 {
            place -= 1;
            if self.reasons[place].is_none() {
                return place;
            }
        }
        0
    }

    /// Sets a literal that is unset. The error is out of memory, and nothing is set.
    pub fn push(&mut self, lit: i32, reason: Option<u32>) -> Result<(), AllocError>
        requires literal { IsLiteral self.old.variables lit }
        requires unset { value_of self.old.literals lit ≡ None }
        ensures ok { OnOk result (self.new ≡ pushed self.old lit reason) }
        ensures err { OnErr result (self.new ≡ self.old) }
    {
        let place = self.literals.len() as u32;
        self.literals.reserve(1)?;
        self.reasons.push(reason)?;
        match self.literals.push(lit) {
            Ok(()) => {
                set_values(&mut self.values, lit, Some(true), Some(false));
                self.wheres[lit.unsigned_abs() as usize] = place;
                Ok(())
            }
            Err(_) => {
                self.reasons.pop();
                Err(AllocError)
            }
        }
    }

    /// Cuts the trail to its first `len` literals. It takes time in how many it cuts.
    #[tactic(auto, using(crate::proofs::Tables::cut_all, crate::proofs::Tables::cut_cut))]
    pub fn cut(&mut self, len: usize)
        ensures { self.new ≡ cut self.old len }
    {
        while self.len() > len {
            self.pop();
        }
    }

    /// Unsets the last literal.
    fn pop(&mut self)
        requires { 0 < length self.old.literals }
        ensures { self.new ≡ cut self.old (length self.old.literals - 1) }
    {
        let _ = self.reasons.pop();
        if let Some(lit) = self.literals.pop() {
            set_values(&mut self.values, lit, None, None);
        }
    }
}

/// The negation of a literal.
fn negation(lit: i32) -> i32
    requires { IsLiteral 2147483647 lit }
    ensures { result ≡ neg_ℤ lit }
{
    -lit
}

/// Gives a literal a value, and its negation another.
fn set_values(values: &mut Vec<Option<bool>>, lit: i32, own: Option<bool>, other: Option<bool>)
    requires literal { IsLiteral 2147483647 lit }
    requires own_place { place_of lit < length values.old.items }
    requires other_place { place_of (neg_ℤ lit) < length values.old.items }
    ensures { values.new.items ≡ slice_set (slice_set values.old.items (place_of lit) own) (place_of (neg_ℤ lit)) other }
{
    values[place_of(lit)] = own;
    values[place_of(negation(lit))] = other;
}

/// Where the value of a literal stands: two places for each variable.
pub fn place_of(lit: i32) -> usize
    ensures { result ≡ place_of lit }
{
    let first = 2 * lit.unsigned_abs() as usize;
    if lit < 0 { first + 1 } else { first }
}
