//! Shelves: the same calls on one in memory and on one over files of the system, with the same answers.
//!
//! Only the calls that are to fail differ: a shelf in memory fails at those that it was given, and the system where a directory
//! stands in the way.

use pg_edge::{Failed, LoadFault, MemShelf, Shelf};
use pg_io_host::DirShelf;
use std::alloc::{AllocError, Global};
use std::fs;
use std::test::Fail;

/// A call on the file of a name, and what is to come of it: `load` of at most so many bytes, `size`, or `part`, from a place on at
/// most so many bytes, which are not none. Any other word is saved.
type Row = (&'static str, &'static str, u64, u64, &'static str);

/// Why nothing was read.
fn why(fault: LoadFault) -> &'static str {
    match fault {
        LoadFault::Missing => "missing",
        LoadFault::Long => "too long",
        LoadFault::Failed => "failed",
        LoadFault::Memory => "no memory",
    }
}

/// What was read, or why nothing was.
fn read(alloc: Global, got: Result<(), LoadFault>, into: &[u8]) -> Result<String, AllocError> {
    match got {
        Ok(()) => String::from_str(alloc, str::from_utf8(into).unwrap_or("no text")),
        Err(fault) => String::from_str(alloc, why(fault)),
    }
}

/// A size.
fn sized(alloc: Global, got: Result<u64, LoadFault>) -> Result<String, AllocError> {
    match got {
        Ok(size) => format!(in alloc; "{size}"),
        Err(fault) => String::from_str(alloc, why(fault)),
    }
}

/// What came of a save.
fn saved(alloc: Global, got: Result<(), Failed>) -> Result<String, AllocError> {
    String::from_str(alloc, if got.is_ok() { "done" } else { "failed" })
}

/// What comes of a call.
fn answer<S: Shelf>(alloc: Global, shelf: &mut S, row: Row) -> Result<String, AllocError> {
    let (name, call, at, most, _) = row;
    let mut into = Vec::new(alloc);
    match call {
        "load" => {
            let got = shelf.load(name, most, &mut into);
            read(alloc, got, &into)
        }
        "size" => sized(alloc, shelf.size(name)),
        "part" => {
            let got = shelf.part(name, at, most.max(1), &mut into);
            read(alloc, got, &into)
        }
        text => saved(alloc, shelf.save(name, text.as_bytes())),
    }
}

/// The shelf answers calls as their rows say, one after another.
fn answers<S: Shelf>(alloc: Global, shelf: &mut S, rows: &[Row]) -> Result<(), Fail> {
    for row in rows {
        let got = answer(alloc, shelf, *row)?;
        if got.as_str() != row.4 {
            return Err(Fail::new(format_args!("{row:?}: {got}")));
        }
    }
    Ok(())
}

/// Whatever keeps files answers these so, one after another, where it has none of the name `c`.
const KEPT: [Row; 16] = [
    ("a", "longer", 0, 0, "done"),
    ("a", "hello", 0, 0, "done"),
    ("a", "size", 0, 0, "5"),
    ("a", "load", 0, 5, "hello"),
    ("a", "load", 0, 4, "too long"),
    ("a", "part", 0, 2, "he"),
    ("a", "part", 1, 3, "ell"),
    ("a", "part", 3, 9, "lo"),
    ("a", "part", 5, 9, ""),
    ("a", "world", 0, 0, "done"),
    ("a", "part", 2, 9, "rld"),
    ("b", "", 0, 0, "done"),
    ("b", "load", 0, 0, ""),
    ("c", "load", 0, 9, "missing"),
    ("c", "size", 0, 0, "missing"),
    ("c", "part", 0, 9, "missing"),
];

/// A shelf of the files `a` with "old" and `b` with "xy", with room for eight bytes, of whose calls the first fails behind three
/// bytes and the third at once, if any is to.
fn in_memory(alloc: Global, fails: bool) -> Result<MemShelf, AllocError> {
    let mut files = Vec::with_capacity(alloc, 2)?;
    files.push((String::from_str(alloc, "a")?, b"old".to_vec(alloc)?))?;
    files.push((String::from_str(alloc, "b")?, b"xy".to_vec(alloc)?))?;
    let failing: &[(u64, usize)] = if fails { &[(1, 3), (3, 0)] } else { &[] };
    MemShelf::new(alloc, files, 8, failing.to_vec(alloc)?)
}

/// What a shelf in memory answers whose calls fail, and that has room for eight bytes: a save that fails leaves a front of the file.
const TORN: [Row; 8] = [
    ("a", "abcdef", 0, 0, "failed"),
    ("a", "load", 0, 9, "abc"),
    ("a", "load", 0, 9, "failed"),
    ("c", "abc", 0, 0, "failed"),
    ("c", "load", 0, 9, "missing"),
    ("b", "123456789", 0, 0, "failed"),
    ("b", "load", 0, 9, "xy"),
    ("a", "load", 0, 9, "abc"),
];

/// What the system answers of a folder, and of a file in none.
const IN_THE_WAY: [Row; 5] = [
    (".", "load", 0, 9, "failed"),
    (".", "part", 0, 9, "failed"),
    (".", "size", 0, 0, "failed"),
    (".", "x", 0, 0, "failed"),
    ("none/below", "x", 0, 0, "failed"),
];

#[test]
fn shelves_in_memory(rt: HostRuntime) -> Result<(), Fail> {
    let mut shelf = in_memory(rt.alloc(), false)?;
    answers(rt.alloc(), &mut shelf, &KEPT)?;
    assert!(rt; shelf.reads() == 0 && shelf.saves() == 0);
    let mut torn = in_memory(rt.alloc(), true)?;
    answers(rt.alloc(), &mut torn, &TORN)?;
    assert!(rt; torn.reads() == 1 && torn.saves() == 3);
    Ok(())
}

#[test]
fn shelves_of_the_system(rt: HostRuntime) -> Result<(), Fail> {
    let mut shelf = DirShelf::new(&rt);
    answers(rt.alloc(), &mut shelf, &KEPT)?;
    assert!(rt; shelf.reads() == 0 && shelf.saves() == 0);
    answers(rt.alloc(), &mut shelf, &IN_THE_WAY)?;
    assert!(rt; shelf.reads() == 3 && shelf.saves() == 2);
    fs::remove_file(&rt, "a")?;
    fs::remove_file(&rt, "b")?;
    Ok(())
}
