//! What commands run on: files under names, an output and a hardware that is watched, all in memory.
//!
//! One of the files, `c`, is meant for what is saved. A command is a line, its words with a blank between them. After it a setting
//! tells how it ended, the text, the files and what was done on the hardware; the next command finds the files as it left them, an
//! empty output and a fresh hardware.

use crate::texts::{IDLE, LOOP, M0, OPEN, PAST, RTU};
use pg_edge::{MemShelf, MemSink};
use pg_hw::Hardware;
use pg_rig::{Rig, Spy};
use pg_tool::{ReadWatcher, Silent, Status, StopWatcher, VerdictWatcher, Watcher, tool_watched};
use std::alloc::{AllocError, Global};
use std::test::Fail;

/// How many bytes a file may be given by a command.
const ROOM: usize = 1 << 20;

/// How many bytes a command may put.
const TEXT: usize = 1 << 14;

/// Calls that fail, by number from 1, each with the bytes that it takes before it does.
pub(crate) type Failing<'a> = &'a [(u64, usize)];

/// Files by name and content.
pub(crate) type Named<'a> = &'a [(&'a str, &'a str)];

/// The files that no command changes.
pub(crate) const FILES: [(&str, &str); 13] = [
    ("none", "machine { word 16; address 4; size 8; }\n"),
    ("one", IDLE),
    ("rtu", RTU),
    ("m0", M0),
    ("end", "pgcert 1\nend\n"),
    ("open", OPEN),
    ("stay", "2: 02000002\n"),
    ("past", PAST),
    ("loop", LOOP),
    ("zeros", ""),
    ("hend", "pghybrid 1\nend\n"),
    ("source", "top:\nadd x=5 y=5 z=5\njmp a=top\n"),
    ("kept", "pgguest 1\nsteps 1\nsize 3\npsw s 2 0 3\nend\n"),
];

/// What the file `c` holds, where nothing else is said: the commands that save do so under this name.
pub(crate) const HELD: &[u8] = b"what was held\n";

/// Files, and what the last command left.
#[derive(Drop)]
pub(crate) struct Setting {
    alloc: Global,
    shelf: MemShelf,
    out: MemSink,
    hw: Spy<Rig>,
    /// How the command ended.
    pub(crate) status: Status,
}

impl Setting {
    /// These files, and behind them `c`, which holds these bytes. These calls of the shelf fail, counted over all commands.
    pub(crate) fn new(
        alloc: Global,
        files: Named<'_>,
        held: &[u8],
        calls: Failing<'_>,
    ) -> Result<Setting, AllocError> {
        let files = files_of(alloc, files, held)?;
        let shelf = MemShelf::new(alloc, files, ROOM, calls.to_vec(alloc)?)?;
        Ok(Setting {
            alloc,
            shelf,
            out: MemSink::new(alloc, TEXT, Vec::new(alloc))?,
            hw: Spy::new(Rig::new(alloc)),
            status: Status::Done,
        })
    }

    /// Runs a line, where these puts fail.
    pub(crate) fn run(&mut self, line: &str, puts: Failing<'_>) -> Result<(), AllocError> {
        self.run_watched(line, puts, &mut Silent)
    }

    /// The same, and a watcher is told of questions, of what was verified, of stops and of verdicts.
    pub(crate) fn run_watched<W: Watcher + ReadWatcher + StopWatcher + VerdictWatcher>(
        &mut self,
        line: &str,
        puts: Failing<'_>,
        watcher: &mut W,
    ) -> Result<(), AllocError> {
        let words = words_of(self.alloc, line)?;
        let mut out = MemSink::new(self.alloc, TEXT, puts.to_vec(self.alloc)?)?;
        let mut hw = Spy::new(Rig::new(self.alloc));
        self.status = tool_watched(
            self.alloc,
            &words,
            &mut self.shelf,
            &mut out,
            &mut hw,
            watcher,
        );
        self.out = out;
        self.hw = hw;
        Ok(())
    }

    /// The text that was put.
    pub(crate) fn text(&self) -> &str {
        str::from_utf8(self.out.bytes()).unwrap_or("what was put is no text")
    }

    /// What `c` holds.
    pub(crate) fn held(&self) -> &[u8] {
        self.shelf.file("c").unwrap_or(&[])
    }

    /// Whether each of these files holds what it held.
    pub(crate) fn keeps(&self, files: Named<'_>) -> bool {
        for (name, content) in files {
            if self.shelf.file(name) != Some(content.as_bytes()) {
                return false;
            }
        }
        true
    }

    /// A cell of the hardware, or a word of ones where there is none.
    pub(crate) fn cell(&self, at: u32) -> u64 {
        if at < self.hw.size() {
            self.hw.peek(at)
        } else {
            u64::MAX
        }
    }

    /// How many steps were done.
    pub(crate) fn steps(&self) -> u64 {
        self.hw.counts().steps
    }

    /// How many of them did not trap.
    pub(crate) fn direct(&self) -> u64 {
        self.hw.counts().untrapped
    }

    /// How many program status words were loaded.
    pub(crate) fn loads(&self) -> u64 {
        self.hw.counts().loads
    }

    /// How many cells the hardware has, and what was done on it.
    pub(crate) fn done(&self) -> Result<String, AllocError> {
        let counts = self.hw.counts();
        format!(in self.alloc;
            "{} cells, {} steps, {} direct, {} loads, {} pokes",
            self.hw.size(),
            counts.steps,
            counts.untrapped,
            counts.loads,
            counts.pokes
        )
    }

    /// The least and the greatest cell that was poked, 99 where none was, the word of cell 1, and of how many cells from this one on
    /// a word is not 0.
    pub(crate) fn poked(&self, behind: u32) -> Result<String, AllocError> {
        let low = self.hw.low().unwrap_or(99);
        let high = self.hw.high().unwrap_or(99);
        let mut set: u32 = 0;
        for at in behind..self.hw.size() {
            set = set.wrapping_add(u32::from(self.cell(at) != 0));
        }
        format!(in self.alloc; "{low} to {high}, {:08x}, {set}", self.cell(1))
    }

    /// Whether the hardware is as it was made.
    pub(crate) fn is_fresh(&self) -> bool {
        let counts = self.hw.counts();
        self.hw.size() == 0 && counts.steps == 0 && counts.pokes == 0 && counts.loads == 0
    }

    /// Whether the command ended so, with this text.
    pub(crate) fn is(&self, status: Status, text: &str) -> bool {
        self.status == status && self.text() == text
    }

    /// Runs a line, which ends so and puts this text.
    pub(crate) fn expect(&mut self, line: &str, status: Status, text: &str) -> Result<(), Fail> {
        self.run(line, &[])?;
        if self.is(status, text) {
            return Ok(());
        }
        Err(Fail::new(format_args!(
            "{line}: {:?} {:?}, and not {text:?}",
            self.status,
            self.text()
        )))
    }
}

/// The files, and behind them `c`.
fn files_of(
    alloc: Global,
    files: Named<'_>,
    held: &[u8],
) -> Result<Vec<(String, Vec<u8>)>, AllocError> {
    let mut made = Vec::new(alloc);
    for (name, content) in files {
        made.push(file_of(alloc, name, content.as_bytes())?)?;
    }
    made.push(file_of(alloc, "c", held)?)?;
    Ok(made)
}

/// A file of one's own.
fn file_of(alloc: Global, name: &str, bytes: &[u8]) -> Result<(String, Vec<u8>), AllocError> {
    let name = String::from_str(alloc, name)?;
    Ok((name, bytes.to_vec(alloc)?))
}

/// The words of a line, behind the program's name; of an empty line there are none.
fn words_of(alloc: Global, line: &str) -> Result<Vec<String>, AllocError> {
    let mut words = Vec::new(alloc);
    words.push(String::from_str(alloc, "pgv")?)?;
    for word in line.split(' ') {
        if !word.is_empty() {
            words.push(String::from_str(alloc, word)?)?;
        }
    }
    Ok(words)
}

/// Runs a line on the files, where `c` holds these bytes, and where these calls of the shelf and these puts fail.
pub(crate) fn run(
    alloc: Global,
    line: &str,
    held: &[u8],
    calls: Failing<'_>,
    puts: Failing<'_>,
) -> Result<Setting, AllocError> {
    let mut left = Setting::new(alloc, &FILES, held, calls)?;
    left.run(line, puts)?;
    Ok(left)
}

/// Whether a command ended so and put nothing, the hardware is as it was made, each file but `c` is as it was, and `c` holds this.
pub(crate) fn is_silent(left: &Setting, status: Status, held: &[u8]) -> bool {
    left.is(status, "") && left.is_fresh() && left.keeps(&FILES) && left.held() == held
}

/// Whether two commands did the same on a hardware of the same size.
pub(crate) fn did_alike(one: &Setting, other: &Setting) -> bool {
    one.hw.counts() == other.hw.counts() && one.hw.size() == other.hw.size()
}

/// Whether two commands ended alike, put the same text, did the same on the hardware, and left the same.
pub(crate) fn are_alike(one: &Setting, other: &Setting) -> bool {
    one.is(other.status, other.text()) && did_alike(one, other) && one.held() == other.held()
}
