//! A shelf in memory, for tests: it tells its files, and fails where it was asked to.
//!
//! Its names are those that it was given at the start, and so is its room: a save never allocates and never
//! makes a new file. A call fails exactly where it was listed to fail, and a save also where its bytes would
//! pass the room or no file has the name. Only the memory for what a caller reads can be wanting besides.
//!
//! Contracts see it as a `ShelfView`, and each method says besides the clauses of the trait what view it
//! leaves, so that a test knows every answer of a list of calls before it makes them.
ghost use Rattle.std.specs.Prelude.{◌≡◌, ◌↔◌, ◌≤◌, ◌<◌, [], length, take, drop, map, option_copied, string_bytes, is_some, OnOk, OnErr, IfOk, IsOk, IsSome, IsSomeAnd, IsErrOf, None};
ghost use Rattle.pg_edge.specs.Shelf.{Loads, Sizes, LoadsPart, CountsRead, CountsSave, Saves};
ghost use Rattle.pg_edge.specs.ShelfView.{content_of, told, next_call, after_read, after_save, after_failed_save};

use crate::count::raised;
use crate::failing::Failing;
use crate::mem_file::{MemFile, content, load_from, part_from, save_to, with_room};
use crate::shelf::{Failed, LoadFault, Shelf};
use std::alloc::{AllocError, Global};
use std::marker::Model;

/// A shelf that keeps its files in memory.
#[derive(Drop)]
pub struct MemShelf {
    files: Vec<MemFile>,
    room: usize,
    failing: Failing,
    reads: u64,
    saves: u64,
}

impl Model for MemShelf {
    ghost use Rattle.std.specs.Prelude.{All};
    ghost use Rattle.pg_edge.specs.MemFile.{all_shown, HasRoom};
    ghost use Rattle.pg_edge.specs.ShelfView.{ShelfView};

    ghost Value = { ShelfView };

    ghost view = { λ s. record {
      files = all_shown s.files.items;
      room = s.room;
      failing = s.failing.listed.items;
      calls = s.failing.calls;
      reads = s.reads;
      saves = s.saves;
    } };

    ghost invariant = { λ s. All (HasRoom s.room) s.files.items };
}

impl MemShelf {
    /// A shelf of these files, by name and content. Where two have one name the first counts.
    ///
    /// A save may leave at most `room` bytes in a file; one that is given longer keeps its content.
    /// `failing` lists the calls, numbered from 1, that are to fail, each with the bytes that it takes
    /// before it does if it is a save. Reads count as calls too. A call that is listed twice does what its
    /// first entry says.
    ///
    /// # Errors
    /// Where there is no memory for the room.
    pub fn new(
        alloc: Global,
        files: Vec<(String, Vec<u8>)>,
        room: usize,
        failing: Vec<(u64, usize)>,
    ) -> Result<MemShelf, AllocError>
        ensures { IfOk result (λ shelf. shelf ≡ record {
          files = map (λ file. (string_bytes file.0, file.1.items)) files.items;
          room = room;
          failing = failing.items;
          calls = 0;
          reads = 0;
          saves = 0;
        }) }
    {
        Ok(MemShelf {
            files: with_room(alloc, files, room)?,
            room,
            failing: Failing {
                listed: failing,
                calls: 0,
            },
            reads: 0,
            saves: 0,
        })
    }

    /// The content of the file `name`. Looking is no call.
    pub fn file(&self, name: &str) -> Option<&[u8]>
        ensures { option_copied result ≡ content_of self.now.files name.now }
    {
        content(&self.files, name)
    }

    /// How many reads have failed.
    pub fn reads(&self) -> u64
        ensures { result ≡ self.now.reads }
    {
        self.reads
    }

    /// How many saves have failed.
    pub fn saves(&self) -> u64
        ensures { result ≡ self.now.saves }
    {
        self.saves
    }

    /// Counts a call that reads, and tells whether it is to fail, which is a fault then.
    fn read_fails(&mut self) -> bool
        ensures fails { result ≡ is_some (next_call self.old) }
        ensures after { self.new ≡ after_read self.old }
        ensures later { self.old.reads ≤ self.new.reads }
    {
        if self.failing.next_call().is_none() {
            return false;
        }
        self.reads = raised(self.reads);
        true
    }
}

impl Shelf for MemShelf {
    ghost files = { told };

    ghost reads = { λ shelf. shelf.reads };

    ghost saves = { λ shelf. shelf.saves };

    /// Reads the file `name` into the empty buffer `into`, if it has at most `limit` bytes.
    ///
    /// # Errors
    /// `Failed` exactly where the call is listed. At other calls `Missing` exactly where no file has the
    /// name, `Long` exactly where the file has more than `limit` bytes, and `Memory` where there is none.
    fn load(&mut self, name: &str, limit: u64, into: &mut Vec<u8>) -> Result<(), LoadFault>
        requires empty { into.old.items ≡ [] }
        ensures answer { Loads (told self.old) name.now limit into.new.items result }
        ensures counted { CountsRead self.old.reads self.new.reads result }
        ensures files { told self.new ≡ told self.old }
        ensures saves { self.new.saves ≡ self.old.saves }

        ensures failed { IsErrOf result LoadFault.Failed ↔ IsSome (next_call self.old) }
        ensures missing { IsErrOf result LoadFault.Missing ↔ ((next_call self.old ≡ None)
            × (content_of self.old.files name.now ≡ None)) }
        ensures long { IsErrOf result LoadFault.Long ↔ ((next_call self.old ≡ None)
            × IsSomeAnd (content_of self.old.files name.now) (λ bytes. limit < length bytes)) }
        ensures after { self.new ≡ after_read self.old }
    {
        if self.read_fails() {
            return Err(LoadFault::Failed);
        }
        load_from(&self.files, name, limit, into)
    }

    /// The number of bytes of the file `name`.
    ///
    /// # Errors
    /// `Failed` exactly where the call is listed. At other calls `Missing` exactly where no file has the name.
    fn size(&mut self, name: &str) -> Result<u64, LoadFault>
        ensures answer { Sizes (told self.old) name.now result }
        ensures counted { CountsRead self.old.reads self.new.reads result }
        ensures files { told self.new ≡ told self.old }
        ensures saves { self.new.saves ≡ self.old.saves }

        ensures failed { IsErrOf result LoadFault.Failed ↔ IsSome (next_call self.old) }
        ensures missing { IsErrOf result LoadFault.Missing ↔ ((next_call self.old ≡ None)
            × (content_of self.old.files name.now ≡ None)) }
        ensures after { self.new ≡ after_read self.old }
    {
        if self.read_fails() {
            return Err(LoadFault::Failed);
        }
        match content(&self.files, name) {
            None => Err(LoadFault::Missing),
            Some(bytes) => Ok(bytes.len() as u64),
        }
    }

    /// Reads at most `most` bytes of the file `name` from the place `at` on into the empty buffer `into`:
    /// as many of them as there are.
    ///
    /// # Errors
    /// `Failed` exactly where the call is listed. At other calls `Missing` exactly where no file has the
    /// name, and `Memory` where there is none for the bytes.
    fn part(&mut self, name: &str, at: u64, most: u64, into: &mut Vec<u8>) -> Result<(), LoadFault>
        requires most { 1 ≤ most }
        requires empty { into.old.items ≡ [] }
        ensures answer { LoadsPart (told self.old) name.now at most into.new.items result }
        ensures counted { CountsRead self.old.reads self.new.reads result }
        ensures files { told self.new ≡ told self.old }
        ensures saves { self.new.saves ≡ self.old.saves }

        ensures failed { IsErrOf result LoadFault.Failed ↔ IsSome (next_call self.old) }
        ensures missing { IsErrOf result LoadFault.Missing ↔ ((next_call self.old ≡ None)
            × (content_of self.old.files name.now ≡ None)) }
        ensures whole { OnOk result (IsSomeAnd (content_of self.old.files name.now)
            (λ bytes. into.new.items ≡ take most (drop at bytes))) }
        ensures after { self.new ≡ after_read self.old }
    {
        if self.read_fails() {
            return Err(LoadFault::Failed);
        }
        part_from(&self.files, name, at, most, into)
    }

    /// Makes `bytes` the content of the file `name`, and allocates nothing.
    ///
    /// # Errors
    /// `Failed` exactly where the call is listed, no file has the name, or `bytes` would pass the room. A
    /// listed call leaves in the file as many of the bytes as its entry says, or all where there are fewer.
    /// Bytes past the room, or under a name that no file has, change nothing.
    fn save(&mut self, name: &str, bytes: &[u8]) -> Result<(), Failed>
        ensures answer { Saves (told self.old) (told self.new) name.now bytes.now result }
        ensures counted { CountsSave self.old.saves self.new.saves result }
        ensures reads { self.new.reads ≡ self.old.reads }

        ensures passes { IsOk result ↔ ((next_call self.old ≡ None)
            × IsSome (content_of self.old.files name.now)
            × (length bytes.now ≤ self.old.room)) }
        ensures ok { OnOk result (self.new ≡ after_save self.old name.now bytes.now) }
        ensures failed { OnErr result (self.new ≡ after_failed_save self.old name.now bytes.now) }
    {
        let failing = self.failing.next_call();
        if save_to(&mut self.files, self.room, failing, name, bytes) {
            return Ok(());
        }
        self.saves = raised(self.saves);
        Err(Failed)
    }
}
