//! Calls that are to fail.
//!
//! An implementation in memory numbers its calls from 1 and is told which of them are to fail, and how
//! many bytes each of those takes before it does.
ghost use Rattle.std.specs.Prelude.{◌≡◌};
ghost use Rattle.pg_edge.specs.Count.{one_more};
ghost use Rattle.pg_edge.specs.Failing.{taken_by};

use crate::count::raised;

/// The calls that are to fail, and the number of calls so far.
#[derive(Drop)]
pub(crate) struct Failing {
    /// Each call's number, with the bytes that it takes before it fails.
    pub(crate) listed: Vec<(u64, usize)>,
    /// How many calls there were.
    pub(crate) calls: u64,
}

impl Failing {
    /// Counts the next call, and tells how many bytes it takes before it fails, if it is to fail.
    pub(crate) fn next_call(&mut self) -> Option<usize>
        ensures answer { result ≡ taken_by self.old.listed.items (one_more self.old.calls) }
        ensures calls { self.new.calls ≡ one_more self.old.calls }
        ensures listed { self.new.listed ≡ self.old.listed }
    {
        self.calls = raised(self.calls);
        find_call(&self.listed, self.calls)
    }
}

/// How many bytes the call of this number takes before it fails. The first entry of a number counts.
fn find_call(listed: &[(u64, usize)], call: u64) -> Option<usize>
    ensures { result ≡ taken_by listed.now call }
{
    for &(number, taken) in listed {
        if number == call {
            return Some(taken);
        }
    }
    None
}
