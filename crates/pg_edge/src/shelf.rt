//! Files by name, as the program sees them.
//!
//! A shelf is whatever keeps the named files: a directory, or memory. Each call may fail for reasons that
//! the caller cannot foresee, so each answer says what it proves of the files and each refusal what it
//! leaves. Reads change no file. A save changes one name alone, and where it fails that name may be left
//! with the first bytes of what was to be saved.
//!
//! `files` is none for a shelf that does not tell its files, as one over a real directory. Then the clauses
//! still bound what comes in, and still say what is counted: a count never falls, and rises at each failure
//! until it stands at `2^64 - 1`. So a count that is below that, and is what it was, says that none of the
//! calls between failed. The top call is lent a shelf for the files that a command names.
ghost use Rattle.std.specs.Prelude.{◌≡◌, ℕ, ◌≤◌, [], Option};
ghost use Rattle.pg_edge.specs.Shelf.{Files, Loads, Sizes, LoadsPart, CountsRead, CountsSave, Saves};

/// Why a shelf did not give what was asked for.
#[derive(Debug, Clone, Copy, PartialEq, Eq)]
pub enum LoadFault {
    /// No file has the name. It is not counted.
    Missing,
    /// The file has more bytes than the caller wants. It comes of `load` alone, and is not counted.
    Long,
    /// The read did not go through, and is counted.
    Failed,
    /// There was no memory for the bytes. It is not counted.
    Memory,
}

/// A write that did not go through, and is counted.
#[derive(Debug, Clone, Copy, PartialEq, Eq)]
pub struct Failed;

/// A store of named files, with a count of the reads and one of the saves that failed.
pub trait Shelf {
    /// The files, where the shelf tells them.
    ghost files: { Self → Option Files };

    /// How many reads have failed.
    ghost reads: { Self → ℕ };

    /// How many saves have failed.
    ghost saves: { Self → ℕ };

    /// Reads the file `name` into the empty buffer `into`, if it has at most `limit` bytes.
    ///
    /// # Errors
    /// `Missing` where no file has the name, `Long` where the file has more than `limit` bytes, `Failed`
    /// where the read failed, `Memory` where there is none for the bytes. `into` is then empty.
    fn load(&mut self, name: &str, limit: u64, into: &mut Vec<u8>) -> Result<(), LoadFault>
        requires empty { into.old.items ≡ [] }
        ensures answer { Loads (files self.old) name.now limit into.new.items result }
        ensures counted { CountsRead (reads self.old) (reads self.new) result }
        ensures files { files self.new ≡ files self.old }
        ensures saves { saves self.new ≡ saves self.old };

    /// The number of bytes of the file `name`.
    ///
    /// # Errors
    /// `Missing` where no file has the name, `Failed` where asking failed, and no other.
    fn size(&mut self, name: &str) -> Result<u64, LoadFault>
        ensures answer { Sizes (files self.old) name.now result }
        ensures counted { CountsRead (reads self.old) (reads self.new) result }
        ensures files { files self.new ≡ files self.old }
        ensures saves { saves self.new ≡ saves self.old };

    /// Reads bytes of the file `name` from the place `at` on into the empty buffer `into`: at most `most`
    /// of them, and at least one if the file goes on there.
    ///
    /// # Errors
    /// `Missing` where no file has the name, `Failed` where the read failed, `Memory` where there is none
    /// for the bytes, and no other. `into` is then empty.
    fn part(&mut self, name: &str, at: u64, most: u64, into: &mut Vec<u8>) -> Result<(), LoadFault>
        requires most { 1 ≤ most }
        requires empty { into.old.items ≡ [] }
        ensures answer { LoadsPart (files self.old) name.now at most into.new.items result }
        ensures counted { CountsRead (reads self.old) (reads self.new) result }
        ensures files { files self.new ≡ files self.old }
        ensures saves { saves self.new ≡ saves self.old };

    /// Makes `bytes` the content of the file `name`, and changes no other.
    ///
    /// # Errors
    /// `Failed` where the save did not go through. The name then has what it had, or a front of `bytes`.
    fn save(&mut self, name: &str, bytes: &[u8]) -> Result<(), Failed>
        ensures answer { Saves (files self.old) (files self.new) name.now bytes.now result }
        ensures counted { CountsSave (saves self.old) (saves self.new) result }
        ensures reads { reads self.new ≡ reads self.old };
}
