//! What says from time to time how far a long command has come.
//!
//! On a terminal that is one line, written over when a second has passed; elsewhere a line of its own each 30 seconds, so that a short
//! command writes none. The clock is looked at once in 1,024 turns of a search, which are some 500 conflicts, or more often where turns
//! take long (`rhythm`), and once for each part of a file: less than a hundredth of the time. Texts are made in buffers that were made
//! before, so that no memory is taken on the way.

use crate::rhythm::Rhythm;
use pg_cert::put::kind_name;
use pg_cli_says::Program;
use pg_io_host::Progress;
use pg_io_host::telling::note;
use pg_out_place::Text;
use pg_run_guests::Pace;
use pg_type::Kind;
use std::alloc::Global;
use std::cell::RefCell;
use std::io::Write;
use std::rt::Clock;
use std::time::{Duration, Instant};

/// After how many seconds the line on a terminal is written anew.
const SHOWN_EVERY: u64 = 1;

/// After how many seconds a line is written elsewhere.
const NOTED_EVERY: u64 = 30;

/// How many milliseconds a second has.
const MILLIS: u64 = 1000;

/// A certificate of more bytes is a long one.
const LONG_FILE: u64 = 10_000_000;

/// How many bytes there is room for in a text.
const TEXT_BYTES: usize = 256;

/// How many bytes of a file's name stand in it.
const NAME_BYTES: usize = 100;

/// Where a text goes.
#[derive(Drop)]
pub struct Lines<'a, E: Write + Drop> {
    /// The program that speaks.
    pub program: Program,
    /// The line that is written over, on a terminal.
    pub line: &'a RefCell<Progress<E>>,
    /// Whether it is one.
    pub is_terminal: bool,
    /// Standard error, for lines of their own.
    pub error: E,
}

/// A question that is searched.
#[derive(Drop)]
struct Question {
    /// The name of the instruction and the kind.
    name: Text,
    /// Its number, from 1, and how many there are.
    number: usize,
    count: usize,
    /// How many clauses were learned of those that may be, once that was told.
    learned: usize,
    budget: Option<u32>,
    /// Whether that is of the second search, after one that spent the budget.
    is_again: bool,
}

/// What says from time to time how far a command has come.
#[derive(Drop)]
pub struct Ticker<'a, C: Clock, E: Write + Drop> {
    clock: &'a C,
    lines: Lines<'a, E>,
    question: Question,
    /// How far a run has come, where one goes on or has ended.
    pace: Option<Pace>,
    text: Text,
    /// When the first was told, and how many seconds after that the last.
    begun: Option<Instant>,
    told: u64,
    rhythm: Rhythm,
}

impl<'a, C: Clock, E: Write + Drop> Ticker<'a, C, E> {
    /// One that has said nothing yet.
    pub fn new(alloc: Global, clock: &'a C, lines: Lines<'a, E>) -> Ticker<'a, C, E> {
        Ticker {
            clock,
            lines,
            question: Question::none(alloc),
            pace: None,
            text: Text::with_room(alloc, TEXT_BYTES),
            begun: None,
            told: 0,
            rhythm: Rhythm::new(),
        }
    }

    /// A question is next; with it, so many are left. On a terminal it is shown at once.
    pub fn ask(&mut self, name: &[u8], kind: Kind, left: usize) {
        self.question.begin(name, kind, left);
        self.rhythm = Rhythm::new();
        let seconds = self.seconds();
        if self.lines.is_terminal || self.is_due(seconds) {
            self.tell_question(seconds);
        }
    }

    /// Its search has learned so many clauses of those that it may learn.
    pub fn search(&mut self, learned: usize, budget: u32) {
        self.question.learn(learned, budget);
        if self.rhythm.beats() {
            let seconds = self.seconds();
            if self.is_due(seconds) {
                self.tell_question(seconds);
            }
        }
    }

    /// So many bytes of a file were read, where it is a long one.
    pub fn read(&mut self, name: &str, done: u64, all: u64) {
        if all > LONG_FILE {
            let is_first = self.begun.is_none();
            let seconds = self.seconds();
            if (is_first && self.lines.is_terminal) || self.is_due(seconds) {
                self.told = seconds;
                put_read(&mut self.text, name, done, all, seconds);
                self.write();
            }
        }
    }

    /// A run has come so far. Its seconds begin with the first call.
    pub fn run(&mut self, pace: Pace) {
        if self.pace.is_none() {
            self.begin_anew();
        }
        self.pace = Some(pace);
        if self.rhythm.beats() {
            let millis = self.millis();
            let seconds = millis / MILLIS;
            if self.is_due(seconds) {
                self.told = seconds;
                put_pace(&mut self.text, pace, millis);
                self.write();
            }
        }
    }

    /// Tells how fast a run went, where it took a second or more.
    pub fn end_run(&mut self) {
        let Some(pace) = self.pace else {
            return;
        };
        let millis = self.millis();
        if millis >= MILLIS {
            put_speed(&mut self.text, pace, millis);
            let program = self.lines.program.name();
            if let Ok(text) = self.text.whole() {
                let _ = note(&mut self.lines.error, program, text);
            }
        }
    }

    /// Forgets what was told.
    fn begin_anew(&mut self) {
        (self.begun, self.told) = (None, 0);
        self.rhythm = Rhythm::new();
    }

    /// How many whole seconds ago the first was told.
    fn seconds(&mut self) -> u64 {
        self.millis() / MILLIS
    }

    /// How many milliseconds ago the first was told. A clock that fails stands still.
    fn millis(&mut self) -> u64 {
        let Ok(now) = Instant::now(self.clock) else {
            return self.told.saturating_mul(MILLIS);
        };
        self.rhythm.look(now);
        match self.begun {
            Some(begun) => millis_of(now.duration_since(begun)),
            None => {
                self.begun = Some(now);
                0
            }
        }
    }

    /// Whether it is time to tell something.
    fn is_due(&self, seconds: u64) -> bool {
        let every = if self.lines.is_terminal {
            SHOWN_EVERY
        } else {
            NOTED_EVERY
        };
        seconds.saturating_sub(self.told) >= every
    }

    /// Tells which question is searched, and how far.
    fn tell_question(&mut self, seconds: u64) {
        self.told = seconds;
        put_question(&mut self.text, &self.question, seconds);
        self.write();
    }

    /// Writes the text, if it is whole. That this fails changes nothing.
    fn write(&mut self) {
        let Ok(text) = self.text.whole() else {
            return;
        };
        let program = self.lines.program.name();
        if self.lines.is_terminal {
            if let Ok(mut line) = self.lines.line.try_borrow_mut() {
                line.show(program, text);
            }
        } else {
            let _ = note(&mut self.lines.error, program, text);
        }
    }

    /// Erases the line, where it is shown.
    pub fn erase(&mut self) {
        if let Ok(mut line) = self.lines.line.try_borrow_mut() {
            line.erase();
        }
    }
}

impl Question {
    /// None yet.
    fn none(alloc: Global) -> Question {
        Question {
            name: Text::with_room(alloc, TEXT_BYTES),
            number: 0,
            count: 0,
            learned: 0,
            budget: None,
            is_again: false,
        }
    }

    /// One is next; with it, so many are left: all there are, where it is the first.
    fn begin(&mut self, name: &[u8], kind: Kind, left: usize) {
        if left > self.count.saturating_sub(self.number) {
            self.count = left;
        }
        self.number = self.count.saturating_sub(left).saturating_add(1);
        self.learned = 0;
        self.budget = None;
        self.is_again = false;
        put_name(&mut self.name, name, kind);
    }

    /// So many clauses were learned. Where they were more before, that is another search.
    fn learn(&mut self, learned: usize, budget: u32) {
        self.is_again |= learned < self.learned;
        self.learned = learned;
        self.budget = Some(budget);
    }
}

/// How many milliseconds a time has.
fn millis_of(time: Duration) -> u64 {
    let seconds = time.as_secs().saturating_mul(MILLIS);
    seconds.saturating_add(u64::from(time.subsec_millis()))
}

/// Makes the name of a question.
fn put_name(to: &mut Text, name: &[u8], kind: Kind) {
    to.clear();
    to.push(name);
    to.push(b" ");
    to.push(kind_name(kind));
}

/// Makes the text of a question: `question K of N, LEARNED of BUDGET clauses, S s: NAME`. The name is left out where it is not whole.
fn put_question(to: &mut Text, question: &Question, seconds: u64) {
    to.clear();
    to.push(b"question ");
    put_share(to, question.number as u64, question.count as u64);
    to.push(b", ");
    if let Some(budget) = question.budget {
        to.push(if question.is_again { b"again " } else { b"" });
        put_share(to, question.learned as u64, u64::from(budget));
        to.push(b" clauses, ");
    }
    put_seconds(to, seconds);
    if let Ok(name) = question.name.whole() {
        to.push(name);
    }
}

/// Makes the text of a file that is read: `DONE of ALL bytes read, S s: NAME`.
fn put_read(to: &mut Text, name: &str, done: u64, all: u64, seconds: u64) {
    to.clear();
    put_share(to, done, all);
    to.push(b" bytes read, ");
    put_seconds(to, seconds);
    to.push(front(name.as_bytes()));
}

/// Makes the text of a run that goes on: `STEPS steps, N a second, S s: K of G guests still`.
fn put_pace(to: &mut Text, pace: Pace, millis: u64) {
    put_speed(to, pace, millis);
    if pace.guests > 0 {
        to.push(b": ");
        put_share(to, pace.still as u64, pace.guests as u64);
        to.push(if pace.guests == 1 {
            b" guest still"
        } else {
            b" guests still"
        });
    }
}

/// Makes the text of how fast a run goes: `STEPS steps, N a second, S s`.
fn put_speed(to: &mut Text, pace: Pace, millis: u64) {
    to.clear();
    to.push_count(pace.turns);
    to.push(b" steps, ");
    to.push_count(pace.turns.saturating_mul(MILLIS) / millis.max(1));
    to.push(b" a second, ");
    to.push_number(millis / MILLIS);
    to.push(b" s");
}

/// As much of a file's name as there is room for.
fn front(name: &[u8]) -> &[u8] {
    &name[..name.len().min(NAME_BYTES)]
}

/// Pushes `PART of WHOLE`.
fn put_share(to: &mut Text, part: u64, whole: u64) {
    to.push_number(part);
    to.push(b" of ");
    to.push_number(whole);
}

/// Pushes `S s: `.
fn put_seconds(to: &mut Text, seconds: u64) {
    to.push_number(seconds);
    to.push(b" s: ");
}
