//! For each literal the clauses that watch it.
//!
//! A clause is to be looked at when a literal that it watches gets false, so that is what these lists are read by. Beside each
//! clause stands a literal of it, its blocker: where that is true the clause needs no look. Contracts see a list of lists.

ghost use Rattle.std.specs.Prelude.{◌≡◌, ◌+◌, ◌<◌, ◌++◌, ◌∷◌, [], length, replicate, IfOk, OnOk, OnErr, slice_index_or, slice_set};
ghost use Rattle.std.specs.List.{swap_remove};

use std::alloc::{AllocError, Global};
use std::marker::Model;

/// A clause, by its place, and a literal of it.
#[derive(Clone, Copy)]
pub struct Watch {
    pub clause: u32,
    pub blocker: i32,
}

/// A list for each literal.
#[derive(Drop)]
pub struct Lists {
    lists: Vec<Vec<Watch>>,
}

impl Model for Lists {
    ghost use Rattle.std.specs.Prelude.{List, map};
    ghost use Rattle.pg_watch.specs.declared.lists.Watch.{Watch};

    ghost Value = { List (List Watch) };

    ghost use Rattle.pg_watch.specs.Lists.{lists_in};

    ghost view = { λ w. lists_in w.lists.items };
}

impl Lists {
    /// So many lists, all empty.
    pub fn new(alloc: Global, count: usize) -> Result<Lists, AllocError>
        ensures { IfOk result (λ lists. lists ≡ replicate count []) }
    {
        let mut lists = Vec::new(alloc);
        for made in 0..count {
            let _ = made;
            lists.push(Vec::new(alloc))?;
        }
        Ok(Lists { lists })
    }

    /// How many clauses the list at a place has.
    pub fn count(&self, at: usize) -> usize
        requires { at < length self.now }
        ensures { result ≡ length (slice_index_or self.now at []) }
    {
        self.lists[at].len()
    }

    /// One of the list at a place.
    pub fn watch(&self, at: usize, index: usize) -> Watch
        requires at { at < length self.now }
        requires index { index < length (slice_index_or self.now at []) }
        ensures { result ≡ slice_index_or (slice_index_or self.now at []) index result }
    {
        self.lists[at][index]
    }

    /// One more in the list at a place. The error is out of memory, and the lists stay.
    pub fn push(&mut self, at: usize, watch: Watch) -> Result<(), AllocError>
        requires { at < length self.old }
        ensures ok { OnOk result (self.new ≡ slice_set self.old at (slice_index_or self.old at [] ++ watch ∷ [])) }
        ensures err { OnErr result (self.new ≡ self.old) }
    {
        let list = &mut self.lists[at];
        match list.push(watch) {
            Ok(()) => Ok(()),
            Err(_) => Err(AllocError),
        }
    }

    /// One less: the last of that list takes its place.
    pub fn remove(&mut self, at: usize, index: usize) -> Watch
        requires at { at < length self.old }
        requires index { index < length (slice_index_or self.old at []) }
        ensures { self.new ≡ slice_set self.old at (swap_remove (slice_index_or self.old at []) index result) }
    {
        let list = &mut self.lists[at];
        list.swap_remove(index)
    }
}
