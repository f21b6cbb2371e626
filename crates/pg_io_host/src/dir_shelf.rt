//! The shelf over files of the system.
//!
//! A program lends one to what it calls. A name is a path, from the working directory on. Nobody knows what other programs do to a
//! file between two calls, so the shelf tells no content. Each call opens its file anew and closes it, but that the file of the
//! last part stays open until another call (`opened`). A file is saved whole (`saving`). A file to be read
//! that is not found is `Missing`. Whatever else keeps one from being opened, measured, read or written, as a directory in
//! its place, is `Failed` and counted, reads apart from saves, up to 2^64 - 1. `Long`, and `Memory` where there is none for
//! the bytes, are not counted. Of the last call that was `Missing` or `Failed` the shelf keeps the name, the deed and the
//! cause, without taking memory, so that a program can say on which file it ends, and why.

ghost use Rattle.std.specs.Prelude.{◌≡◌, ◌≢◌, ◌≤◌, [], length, None, Ok, Err, option_copied, IfOk, IfErr, OnOk, OnErr, IsErrOf};
ghost use Rattle.pg_edge.specs.Count.{one_more};
ghost use Rattle.pg_edge.specs.Shelf.{Loads, LoadsPart, Saves, Sizes, CountsRead, CountsSave};
ghost use Rattle.pg_io_host.specs.Refusals.{load_fault_of, KeepsRead, KeepsSave};

use crate::fault::{Fault, fault_of};
use crate::opened::{Opened, load_part};
use crate::refused::{Cause, Deed, Refused};
use crate::saving::save_file;
use crate::streams::read_within;
use pg_edge::{Failed, LoadFault, Shelf};
use std::fs;
use std::io::ErrorKind;
use std::rt::Files;

/// A shelf whose files are the system's, with a count of the reads and one of the saves that failed, and the last refusal.
#[derive(Drop)]
pub struct DirShelf<'a, R: Files> {
    system: &'a R,
    reads: u64,
    saves: u64,
    refused: Option<Refused>,
    /// The file of the last part, where no other call came since.
    opened: Option<Opened<R::File>>,
}

impl<'a, R: Files> DirShelf<'a, R> {
    /// A shelf over the system's files, with no fault yet, and nothing refused.
    pub fn new(system: &'a R) -> DirShelf<'a, R>
        ensures reads { result.reads ≡ 0 }
        ensures saves { result.saves ≡ 0 }
        ensures refused { result.refused ≡ None }
    {
        DirShelf {
            system,
            reads: 0,
            saves: 0,
            refused: None,
            opened: None,
        }
    }

    /// How many reads have failed.
    pub fn reads(&self) -> u64
        ensures { result ≡ self.now.reads }
    {
        self.reads
    }

    /// How many saves have failed.
    pub fn saves(&self) -> u64
        ensures { result ≡ self.now.saves }
    {
        self.saves
    }

    /// The last call that was refused because the file is missing or the system failed, if there was one. A call that
    /// succeeds leaves it, and so does one that is refused for the length of a file or for lack of memory.
    pub fn refused(&self) -> Option<&Refused>
        ensures { option_copied result ≡ self.now.refused }
    {
        self.refused.as_ref()
    }

    /// Counts a read that failed, keeps what is to be kept of it, and says what to answer.
    fn answer_read<T: Drop>(
        &mut self,
        deed: Deed,
        name: &str,
        answer: Result<T, Fault>,
    ) -> Result<T, LoadFault>
        ensures ok { IfOk answer (λ value. result ≡ Ok value) }
        ensures fault { IfErr answer (λ fault. result ≡ Err (load_fault_of fault)) }
        ensures counted { CountsRead self.old.reads self.new.reads result }
        ensures failed { IsErrOf result LoadFault.Failed → self.new.reads ≡ one_more self.old.reads }
        ensures no_fault { ¬ IsErrOf result LoadFault.Failed → self.new.reads ≡ self.old.reads }
        ensures saves { self.new.saves ≡ self.old.saves }
        ensures kept { KeepsRead deed name.now self.old.refused self.new.refused result }
    {
        match answer {
            Ok(value) => Ok(value),
            Err(fault) => self.refuse_read(deed, name, fault),
        }
    }

    /// Counts and keeps what is to be counted and kept of a read that met the fault, and answers it.
    fn refuse_read<T>(&mut self, deed: Deed, name: &str, fault: Fault) -> Result<T, LoadFault>
        ensures fault { result ≡ Err (load_fault_of fault) }
        ensures counted { CountsRead self.old.reads self.new.reads result }
        ensures failed { IsErrOf result LoadFault.Failed → self.new.reads ≡ one_more self.old.reads }
        ensures no_fault { ¬ IsErrOf result LoadFault.Failed → self.new.reads ≡ self.old.reads }
        ensures saves { self.new.saves ≡ self.old.saves }
        ensures kept { KeepsRead deed name.now self.old.refused self.new.refused result }
    {
        match fault {
            Fault::Long => Err(LoadFault::Long),
            Fault::Memory => Err(LoadFault::Memory),
            Fault::Missing => {
                self.refused = Some(Refused::new(deed, Cause::Missing, name));
                Err(LoadFault::Missing)
            }
            Fault::System(kind) => {
                self.reads = self.reads.saturating_add(1);
                self.refused = Some(Refused::new(deed, Cause::System(kind), name));
                Err(LoadFault::Failed)
            }
        }
    }
}

impl<R: Files> Shelf for DirShelf<'_, R> {
    ghost files = { λ _. None };

    ghost reads = { λ shelf. shelf.reads };

    ghost saves = { λ shelf. shelf.saves };

    /// Reads the file `name`, if it has at most `limit` bytes. No more than one beyond them is asked for.
    fn load(&mut self, name: &str, limit: u64, into: &mut Vec<u8>) -> Result<(), LoadFault>
        requires empty { into.old.items ≡ [] }
        ensures answer { Loads None name.now limit into.new.items result }
        ensures counted { CountsRead self.old.reads self.new.reads result }
        ensures saves { self.new.saves ≡ self.old.saves }
        ensures kept { KeepsRead Deed.Read name.now self.old.refused self.new.refused result }
    {
        self.opened = None;
        let answer = load_file(self.system, name, limit, into);
        self.answer_read(Deed::Read, name, answer)
    }

    /// The number of bytes of the file `name`. A directory is none, and asking for its size a failed read.
    fn size(&mut self, name: &str) -> Result<u64, LoadFault>
        ensures answer { Sizes None name.now result }
        ensures counted { CountsRead self.old.reads self.new.reads result }
        ensures saves { self.new.saves ≡ self.old.saves }
        ensures kept { KeepsRead Deed.Size name.now self.old.refused self.new.refused result }
    {
        self.opened = None;
        let answer = size_of_file(self.system, name);
        self.answer_read(Deed::Size, name, answer)
    }

    /// Reads the file `name` from the place `at` on: `most` bytes, or fewer where it ends before. Parts that follow one another are
    /// read without a seek, so that they may come through a pipe.
    fn part(&mut self, name: &str, at: u64, most: u64, into: &mut Vec<u8>) -> Result<(), LoadFault>
        requires most { 1 ≤ most }
        requires empty { into.old.items ≡ [] }
        ensures answer { LoadsPart None name.now at most into.new.items result }
        ensures counted { CountsRead self.old.reads self.new.reads result }
        ensures saves { self.new.saves ≡ self.old.saves }
        ensures kept { KeepsRead Deed.Read name.now self.old.refused self.new.refused result }
    {
        let answer = load_part(self.system, &mut self.opened, name, at, most, into);
        self.answer_read(Deed::Read, name, answer)
    }

    /// Writes `bytes` to the file `name`, which is made or replaced.
    fn save(&mut self, name: &str, bytes: &[u8]) -> Result<(), Failed>
        ensures answer { Saves None None name.now bytes.now result }
        ensures counted { CountsSave self.old.saves self.new.saves result }
        ensures reads { self.new.reads ≡ self.old.reads }
        ensures failed { OnErr result (self.new.saves ≡ one_more self.old.saves) }
        ensures no_fault { OnOk result (self.new.saves ≡ self.old.saves) }
        ensures kept { KeepsSave name.now self.old.refused self.new.refused result }
    {
        self.opened = None;
        match save_file(self.system, name, bytes) {
            Ok(()) => Ok(()),
            Err(kind) => {
                self.saves = self.saves.saturating_add(1);
                self.refused = Some(Refused::new(Deed::Save, Cause::System(kind), name));
                Err(Failed)
            }
        }
    }
}

/// Reads the file into the empty buffer `into`, if it has at most `limit` bytes.
fn load_file<R: Files>(system: &R, name: &str, limit: u64, into: &mut Vec<u8>) -> Result<(), Fault>
    requires empty { into.old.items ≡ [] }
    ensures within { OnOk result (length into.new.items ≤ limit) }
    ensures empty { OnErr result (into.new.items ≡ []) }
{
    match fs::open(system, name) {
        Ok(mut file) => read_within(&mut file, limit, into),
        Err(error) => Err(fault_of(&error)),
    }
}

/// The number of bytes of the file. A directory is none.
fn size_of_file<R: Files>(system: &R, name: &str) -> Result<u64, Fault>
    ensures never_long { ¬ IsErrOf result Fault.Long }
    ensures never_memory { ¬ IsErrOf result Fault.Memory }
{
    match fs::metadata(system, name) {
        Ok(data) if data.is_dir() => Err(Fault::System(ErrorKind::IsADirectory)),
        Ok(data) => Ok(data.len()),
        Err(error) => Err(fault_of(&error)),
    }
}
