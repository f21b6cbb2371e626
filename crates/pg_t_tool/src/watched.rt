//! Who is told of each question while a description is classified, how far long work has come, why a command stops, and of a verdict
//! that is not saved.

use crate::setting::Setting;
use crate::texts::M0;
use pg_tool::{
    JudgedMachine, Kind, ReadWatcher, SearchWatcher, Stop, StopWatcher, VerdictWatcher, Watcher,
};
use std::alloc::{AllocError, Global};
use std::test::Fail;

/// Counts the questions that it is told of, and keeps how many were left at the last, whether a search was told of between two, and how
/// many bytes were verified. Counts stops, and verdicts that were not saved.
#[derive(Drop)]
struct Counting {
    told: usize,
    left: usize,
    is_searched: bool,
    read: usize,
    stops: usize,
    unsaved: usize,
}

impl Counting {
    /// Before anything is told.
    fn new() -> Counting {
        Counting {
            told: 0,
            left: 0,
            is_searched: false,
            read: 0,
            stops: 0,
            unsaved: 0,
        }
    }
}

impl Watcher for Counting {
    fn asks(&mut self, _name: &[u8], _kind: Kind, left: usize) {
        self.told = self.told.wrapping_add(1);
        self.left = left;
    }
}

impl SearchWatcher for Counting {
    fn goes_on(&mut self, learned: usize, budget: u32) {
        self.is_searched = self.told > 0 && learned <= budget as usize;
    }
}

impl ReadWatcher for Counting {
    fn reads(&mut self, done: usize, all: usize) {
        self.read = if done <= all { done } else { 0 };
    }
}

impl StopWatcher for Counting {
    fn stops(&mut self, _stop: &Stop) {
        self.stops = self.stops.wrapping_add(1);
    }
}

impl VerdictWatcher for Counting {
    fn unsaved(&mut self, _judged: &JudgedMachine) {
        self.unsaved = self.unsaved.wrapping_add(1);
    }
}

/// A description of one instruction that traps.
const ONE_TRAP: &str = "machine { word 32; address 8; size 64; }
instr svc \"00000011_........................\" { trap; }
";

/// Lines, whether the second call of the shelf fails, and what is told: there are five kinds, of which a hybrid monitor has four. Of
/// the third line the second call saves the certificate.
const LINES: [(&str, bool, &str); 7] = [
    (
        "check d --cert c",
        false,
        "5 told, 1 left, 0 stops, 0 unsaved",
    ),
    (
        "hcheck d --cert c",
        false,
        "4 told, 1 left, 0 stops, 0 unsaved",
    ),
    (
        "check d --cert c",
        true,
        "5 told, 1 left, 0 stops, 1 unsaved",
    ),
    ("check d", false, "0 told, 0 left, 1 stops, 0 unsaved"),
    (
        "check n --cert c",
        false,
        "0 told, 0 left, 1 stops, 0 unsaved",
    ),
    ("verify d n", false, "0 told, 0 left, 1 stops, 0 unsaved"),
    ("print none", false, "0 told, 0 left, 1 stops, 0 unsaved"),
];

/// What a watcher is told of a line.
fn told(alloc: Global, line: &str, fails: bool) -> Result<String, AllocError> {
    let mut counting = Counting::new();
    let files = [("d", ONE_TRAP), ("n", "")];
    let calls: &[(u64, usize)] = if fails { &[(2, 0)] } else { &[] };
    let mut at = Setting::new(alloc, &files, &[], calls)?;
    at.run_watched(line, &[], &mut counting)?;
    format!(in alloc;
        "{} told, {} left, {} stops, {} unsaved",
        counting.told, counting.left, counting.stops, counting.unsaved
    )
}

#[test]
fn questions_and_stops_are_told_once(rt: HostRuntime) -> Result<(), Fail> {
    for (line, fails, want) in LINES {
        let told = told(rt.alloc(), line, fails)?;
        assert!(rt; told.as_str() == want, "{line}: {told}");
    }
    Ok(())
}

#[test]
fn long_work_is_told(rt: HostRuntime) -> Result<(), Fail> {
    let mut at = Setting::new(rt.alloc(), &[("d", M0)], &[], &[])?;
    let mut checked = Counting::new();
    at.run_watched("check d --cert c", &[], &mut checked)?;
    assert!(rt; checked.is_searched && checked.read == 0);
    let saved = at.held().len();
    let mut migrated = Counting::new();
    at.run_watched("migrate d c c", &[], &mut migrated)?;
    assert!(rt; !migrated.is_searched && migrated.read == saved);
    let mut verified = Counting::new();
    at.run_watched("verify d c", &[], &mut verified)?;
    assert!(rt; !verified.is_searched && verified.read == 0);
    Ok(())
}
