//! The literals that an analysis of a conflict has come to, as a flag for each literal.

ghost use Rattle.std.specs.Prelude.{◌≡◌, ◌+◌, ◌*◌, ◌<◌, ◌≤◌, ◌^◌, length, false, true, pos, neg_ℤ, replicate, slice_set, slice_index_or, IfOk, IsTrue};
ghost use Rattle.pg_cnf.specs.Literals.{IsLiteral};
ghost use Rattle.pg_proof.specs.Places.{place, is_marked, IsWithin, AreWithin};
ghost use Rattle.pg_proof.specs.Marked.{marked};
ghost use Rattle.pg_sat.specs.Cut.{IsResolved};
ghost use Rattle.pg_sat.specs.Listed.{AreDownWithin};

use pg_sat_guide::{Guide, negation};
use std::alloc::{AllocError, Global};
use std::marker::Model;

/// Where the flag of a literal stands: two places for each variable.
pub fn place(literal: i32) -> usize
    ensures { result ≡ place literal }
{
    let first = 2 * literal.unsigned_abs() as usize;
    if literal < 0 { first + 1 } else { first }
}

/// So many flags are passed over at once where none of them was ever put up.
const BLOCK: usize = 64;

/// A flag for each literal of some variables, up or down.
#[derive(Drop)]
pub struct Flags {
    flags: Vec<bool>,
    /// For each block of flags whether one was put up.
    blocks: Vec<bool>,
}

impl Model for Flags {
    ghost use Rattle.std.specs.Prelude.{Bool, List};

    ghost Value = { List Bool };

    ghost view = { λ f. f.flags.items };

    ghost use Rattle.pg_sat.specs.Blocks.{AreCovered};

    ghost invariant = { λ f. AreCovered f.flags.items f.blocks.items };
}

impl Flags {
    /// All down, for so many variables.
    pub fn new(alloc: Global, variables: u32) -> Result<Flags, AllocError>
        ensures { IfOk result (λ flags. flags ≡ replicate (2 * variables + 2) false) }
    {
        let places = 2 * variables as usize + 2;
        let flags = vec![in alloc; false; places]?;
        let blocks = vec![in alloc; false; places / BLOCK + 1]?;
        Ok(Flags { flags, blocks })
    }

    /// Whether the flag at a place is up.
    pub fn is_up(&self, at: usize) -> bool
        requires { at < length self.now }
        ensures { result ≡ slice_index_or self.now at false }
    {
        self.flags[at]
    }

    /// Whether no flag was put up in the blocks that have the places from one to before another.
    pub fn are_down(&self, from: usize, to: usize) -> bool
        ensures { IsTrue result → AreDownWithin self.now from to }
    {
        for block in from / BLOCK..to / BLOCK + 1 {
            if is_raised(self.blocks.as_slice(), block) {
                return false;
            }
        }
        true
    }

    /// Puts the flag at a place up or down.
    fn put(&mut self, at: usize, up: bool)
        requires { at < length self.old }
        ensures { self.new ≡ slice_set self.old at up }
    {
        raise(&mut self.blocks, at / BLOCK);
        self.flags[at] = up;
    }

    /// Puts the flag of each literal of a clause up.
    pub fn mark(&mut self, clause: &[i32])
        requires { AreWithin (length self.old) clause.now }
        ensures { self.new ≡ marked self.old clause.now }
    {
        for literal in clause {
            self.put(place(*literal), true);
        }
    }

    /// Lets a guide see each literal of a clause whose flag is down.
    pub fn show(&self, clause: &[i32], guide: &mut Guide)
        requires { AreWithin (length self.now) clause.now }
    {
        for literal in clause {
            if !self.is_up(place(*literal)) {
                guide.see(*literal);
            }
        }
    }

    /// In place of the negation of a literal, whose flag is up, those of the other literals of its clause go up.
    pub fn resolve(&mut self, literal: i32, clause: &[i32])
        requires literal { IsLiteral 2147483647 literal }
        requires here { IsWithin (length self.old) literal }
        requires within { AreWithin (length self.old) clause.now }
        ensures resolved { IsResolved (is_marked self.old) (is_marked self.new) clause.now literal }
        ensures places { length self.new ≡ length self.old }
    {
        self.put(place(negation(literal)), false);
        self.mark(clause);
        self.put(place(literal), false);
    }
}

/// Whether a flag of a block was put up, as is taken to be so where there is no such block.
fn is_raised(blocks: &[bool], block: usize) -> bool
    ensures { result ≡ slice_index_or blocks.now block true }
{
    match blocks.get(block) {
        Some(raised) => *raised,
        None => true,
    }
}

/// A flag of a block may have been put up.
fn raise(blocks: &mut Vec<bool>, block: usize)
    ensures { blocks.new.items ≡ slice_set blocks.old.items block true }
{
    if block < blocks.len() {
        blocks[block] = true;
    }
}
