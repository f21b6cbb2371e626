//! Whether some literals are all that a clause held needs.
//!
//! Each clause hangs in the list of its first literal, the empty one in a list apart. A clause that is part of some literals
//! hangs in the list of one of these, so that `Checker::covered` walks their lists and not all clauses. The number of a
//! clause stays in its list where the clause is taken away, and is passed over.
//!
//! A list is linked: of each place the number that hung last is kept, and of each number that which hung before it. So a clause
//! more costs one link, and no list grows. Most logs never ask, so the lists are made when the first question comes, from all
//! clauses at once; that there is room for them is seen to as clauses come.

ghost use Rattle.std.specs.Prelude.{◌≡◌, ◌≢◌, ◌+◌, ◌-◌, ◌++◌, ◌∷◌, [], ℕ, ◌<◌, ◌≤◌, length, true, false, replicate, slice_set, slice_index_or, ◌^◌, IfOk, OnOk, OnErr};
ghost use Rattle.std.specs.List.{list_any};
ghost use Rattle.pg_proof.specs.Places.{is_marked, place};
ghost use Rattle.pg_proof.specs.State.{clause_at, AreHeldWithin};
ghost use Rattle.pg_proof.specs.Covered.{passes, home, is_covered, list_passes, place_passes, AreLinksBelow, AreLinked, IsHung, chain, hung_of};
ghost use Rattle.pg_proof.specs.Marked.{marked};

use crate::marks::Marks;
use crate::propagation::place;
use crate::store::{Store, clause_at};
use crate::tight::are_marked;
use std::alloc::{AllocError, Global};

/// The lists in which clauses hang.
#[derive(Drop)]
pub struct Hung {
    /// Of each place the number that hung there last, or 0.
    pub heads: Vec<u32>,
    /// Of each number, from 1 on, the one that hung before it at the same place, or 0.
    pub links: Vec<u32>,
    /// Whether the clauses hang; else the lists are empty.
    pub made: bool,
}

/// So many lists, which are not made yet, with room for so many clauses.
pub fn no_lists(alloc: Global, places: usize, clauses: usize) -> Result<Hung, AllocError>
    ensures heads { IfOk result (λ hung. hung.heads.items ≡ replicate places 0) }
    ensures links { IfOk result (λ hung. hung.links.items ≡ replicate clauses 0) }
    ensures made { IfOk result (λ hung. hung.made ≡ false) }
{
    let heads = zeros(alloc, places)?;
    let links = zeros(alloc, clauses)?;
    Ok(Hung {
        heads,
        links,
        made: false,
    })
}

/// So many zeros.
fn zeros(alloc: Global, places: usize) -> Result<Vec<u32>, AllocError>
    ensures { IfOk result (λ numbers. numbers.items ≡ replicate places 0) }
{
    vec![in alloc; 0u32; places]
}

/// The place of the list in which a clause hangs: that of its first literal, or 0 for the empty clause.
pub fn home(literals: &[i32]) -> usize
    ensures { result ≡ home literals.now }
{
    match literals {
        [] => 0,
        [first, ..] => place(*first),
    }
}

/// Puts a number, for which there is a link, into the list at a place.
fn hang(hung: &mut Hung, place: usize, number: u32)
    requires place { place < length hung.old.heads.items }
    requires least { 0 < number }
    requires most { number ≤ length hung.old.links.items }
    ensures heads { hung.new.heads.items ≡ slice_set hung.old.heads.items place number }
    ensures links { hung.new.links.items ≡ slice_set hung.old.links.items (number - 1) (slice_index_or hung.old.heads.items place 0) }
    ensures made { hung.new.made ≡ hung.old.made }
{
    hung.links[number as usize - 1] = hung.heads[place];
    hung.heads[place] = number;
}

/// Sees to it that there is a link for one clause more than there are. The error is out of memory, and the lists stay.
fn make_link(hung: &mut Hung, clauses: usize) -> Result<(), AllocError>
    requires { clauses ≤ length hung.old.links.items }
    ensures room { OnOk result (clauses < length hung.new.links.items) }
    ensures least { length hung.old.links.items ≤ length hung.new.links.items }
    ensures links { (k : ℕ) → slice_index_or hung.new.links.items k 0 ≡ slice_index_or hung.old.links.items k 0 }
    ensures heads { hung.new.heads.items ≡ hung.old.heads.items }
    ensures made { hung.new.made ≡ hung.old.made }
{
    if clauses < hung.links.len() {
        return Ok(());
    }
    hung.links.push(0)?;
    Ok(())
}

/// A clause of these literals more, at the end, which hangs at its home. The error is out of memory, and the clauses stay.
pub fn hold(clauses: &mut Store, hung: &mut Hung, literals: &[i32]) -> Result<(), AllocError>
    requires room { length clauses.old + 1 < 2 ^ 32 }
    requires home { home literals.now < length hung.old.heads.items }
    requires hung { IsHung hung.old.heads.items hung.old.links.items hung.old.made clauses.old }
    ensures held { OnOk result (clauses.new ≡ clauses.old ++ Some literals.now ∷ []) }
    ensures kept { OnErr result (clauses.new ≡ clauses.old) }
    ensures hung { IsHung hung.new.heads.items hung.new.links.items hung.new.made clauses.new }
    ensures places { length hung.new.heads.items ≡ length hung.old.heads.items }
{
    let number = clauses.len() as u32 + 1;
    make_link(hung, clauses.len())?;
    clauses.push(literals)?;
    if hung.made {
        hang(hung, home(literals), number);
    }
    Ok(())
}

/// Makes all numbers zero.
fn zero(numbers: &mut Vec<u32>)
    ensures { numbers.new.items ≡ replicate (length numbers.old.items) 0 }
{
    numbers.as_mut_slice().fill(0);
}

/// Makes the lists anew: every clause that is held hangs.
fn hang_all(hung: &mut Hung, clauses: &Store)
    requires few { length clauses.now < 2 ^ 32 }
    requires some { 0 < length hung.old.heads.items }
    requires within { AreHeldWithin (length hung.old.heads.items) clauses.now }
    requires hung { IsHung hung.old.heads.items hung.old.links.items hung.old.made clauses.now }
    ensures hung { IsHung hung.new.heads.items hung.new.links.items true clauses.now }
    ensures places { length hung.new.heads.items ≡ length hung.old.heads.items }
    ensures made { hung.new.made ≡ hung.old.made }
{
    zero(&mut hung.heads);
    for i in 0..clauses.len() {
        let number = i as u32 + 1;
        match clause_at(clauses, number) {
            None => continue,
            Some(clause) => hang(hung, home(clause), number),
        }
    }
}

/// Sees to it that the lists are made.
pub fn make_lists(hung: &mut Hung, clauses: &Store)
    requires few { length clauses.now < 2 ^ 32 }
    requires some { 0 < length hung.old.heads.items }
    requires within { AreHeldWithin (length hung.old.heads.items) clauses.now }
    requires hung { IsHung hung.old.heads.items hung.old.links.items hung.old.made clauses.now }
    ensures hung { IsHung hung.new.heads.items hung.new.links.items hung.new.made clauses.now }
    ensures places { length hung.new.heads.items ≡ length hung.old.heads.items }
    ensures made { hung.new.made ≡ true }
{
    if hung.made {
        return;
    }
    hang_all(hung, clauses);
    hung.made = true;
}

/// Marks each literal that has a place among the flags.
fn mark_known(flags: &mut Marks, literals: &[i32])
    ensures marked { flags.new ≡ marked flags.old literals.now }
    ensures places { length flags.new ≡ length flags.old }
{
    for literal in literals {
        let place = place(*literal);
        if place < flags.len() {
            flags.set(place);
        }
    }
}

/// Whether the clause with a number is held and each of its literals is marked.
fn passes(flags: &Marks, clauses: &Store, number: u32) -> bool
    requires { AreHeldWithin (length flags.now) clauses.now }
    ensures { result ≡ passes (is_marked flags.now) (clause_at clauses.now number) }
{
    match clause_at(clauses, number) {
        Some(clause) => are_marked(flags, clause),
        None => false,
    }
}

/// Whether one of the clauses in a list passes: those of a number and of all that hung before it.
fn list_passes(flags: &Marks, clauses: &Store, links: &[u32], first: u32) -> bool
    requires held { AreHeldWithin (length flags.now) clauses.now }
    requires below { AreLinksBelow links.now }
    requires most { first ≤ length links.now }
    ensures { result ≡ list_passes (is_marked flags.now) clauses.now (chain first links.now first) }
{
    let mut number = first;
    while number != 0 {
        if passes(flags, clauses, number) {
            return true;
        }
        number = links[number as usize - 1];
    }
    false
}

/// Whether one in the list at a place does; there may be no such list.
fn place_passes(flags: &Marks, clauses: &Store, hung: &Hung, place: usize) -> bool
    requires held { AreHeldWithin (length flags.now) clauses.now }
    requires linked { AreLinked hung.now.heads.items hung.now.links.items (length clauses.now) }
    ensures { result ≡ place_passes (is_marked flags.now) clauses.now (hung_of hung.now.heads.items hung.now.links.items) place }
{
    if place < hung.heads.len() {
        return list_passes(flags, clauses, hung.links.as_slice(), hung.heads[place]);
    }
    false
}

/// Whether one in the lists of these literals does.
fn any_passes(flags: &Marks, clauses: &Store, hung: &Hung, literals: &[i32]) -> bool
    requires held { AreHeldWithin (length flags.now) clauses.now }
    requires linked { AreLinked hung.now.heads.items hung.now.links.items (length clauses.now) }
    ensures { result ≡ list_any (λ z. place_passes (is_marked flags.now) clauses.now (hung_of hung.now.heads.items hung.now.links.items) (place z)) literals.now }
{
    for literal in literals {
        if place_passes(flags, clauses, hung, place(*literal)) {
            return true;
        }
    }
    false
}

/// Whether some clause held has no literal but these. It leaves marks, and nothing else. It costs the number of literals,
/// and the lengths of the clauses in their lists.
pub fn is_covered(flags: &mut Marks, clauses: &Store, hung: &Hung, literals: &[i32]) -> bool
    requires held { AreHeldWithin (length flags.old) clauses.now }
    requires hung { IsHung hung.now.heads.items hung.now.links.items hung.now.made clauses.now }
    requires made { hung.now.made ≡ true }
    ensures covered { result ≡ is_covered clauses.now literals.now }
    ensures places { length flags.new ≡ length flags.old }
{
    flags.clear();
    mark_known(flags, literals);
    if place_passes(flags, clauses, hung, 0) {
        return true;
    }
    any_passes(flags, clauses, hung, literals)
}
