//! Who watches a command: how far it has come is told by the ticker, and what is to be said at the end is kept.

use crate::held::LastRead;
use crate::pointing::pointed;
use crate::ticker::Ticker;
use pg_cert_migrate::ReadWatcher;
use pg_classify::{SearchWatcher, Watcher};
use pg_cli_says::advice::open_of;
use pg_cli_says::{Lacking, Named, Program, WordsWatcher, advice, say_why, warn};
use pg_cmd_base::{Refusal, Status, Stop, StopWatcher};
use pg_cmd_certs::{JudgedMachine, VerdictWatcher, tell_verdict};
use pg_io_host::streams::write_whole;
use pg_io_host::{Refused, StdSink};
use pg_report::{CertificateLine, RefusalLine};
use pg_run_guests::{Pace, RunWatcher};
use pg_type::Kind;
use std::alloc::{AllocError, Global};
use std::cell::RefCell;
use std::io::{ErrorKind, Write};
use std::rt::{Clock, Files};
use std::{fs, str};

/// What a watcher of a command is lent.
#[derive(Clone, Copy)]
pub struct Seen<'a, 't, R: Files + Clock, E: Write + Drop> {
    /// The system's files.
    pub files: &'a R,
    /// What says how far the command has come.
    pub ticker: &'a RefCell<Ticker<'t, R, E>>,
    /// What was read of the file that was asked for last.
    pub held: &'a RefCell<LastRead>,
}

/// How a command ended.
#[derive(Clone, Copy)]
pub struct Ended<'e> {
    /// Its status.
    pub status: Status,
    /// The last error of standard output, where it could not be written.
    pub output: Option<ErrorKind>,
    /// The call on a file that was refused last.
    pub refused: Option<&'e Refused>,
    /// The last bytes of standard output, of its last piece.
    pub last: &'e [u8],
    /// How many bytes the file has that was saved last, if one was.
    pub saved: Option<u64>,
}

/// Who watches a command.
#[derive(Drop)]
pub struct Watching<'a, 't, R: Files + Clock, E: Write + Drop> {
    alloc: Global,
    seen: Seen<'a, 't, R, E>,
    /// Standard error, for warnings and for verdicts.
    error: E,
    verdicts: StdSink<E>,
    /// The program that speaks.
    program: Program,
    /// What its words name.
    named: Named<'a>,
    /// Whether a question was asked.
    has_asked: bool,
    /// Where the refusal points, and what is to be done then, to be said at the end.
    pointed: Vec<u8>,
    advice: Vec<u8>,
    /// What the words name that is not there.
    lacking: Option<Lacking>,
}

impl<'a, 't, R: Files + Clock, E: Write + Drop> Watching<'a, 't, R, E> {
    /// Who watches a command of a program, whose words name this, with two handles of standard error.
    pub fn new(
        alloc: Global,
        seen: Seen<'a, 't, R, E>,
        errors: (E, E),
        program: Program,
        named: Named<'a>,
    ) -> Watching<'a, 't, R, E> {
        Watching {
            alloc,
            seen,
            error: errors.0,
            verdicts: StdSink::new(errors.1),
            program,
            named,
            has_asked: false,
            pointed: Vec::new(alloc),
            advice: Vec::new(alloc),
            lacking: None,
        }
    }

    /// Says at the end of a command what is to be said: where a refused file is at fault, why the command ended so, and what is to be
    /// done. Where memory is refused, or a line cannot be written, the rest is said.
    pub fn ends(&mut self, ended: &Ended<'_>) {
        if let Ok(mut ticker) = self.seen.ticker.try_borrow_mut() {
            ticker.erase();
            ticker.end_run();
        }
        let _ = write_whole(&mut self.error, self.pointed.as_slice());
        let _ = write_whole(&mut self.error, self.advice.as_slice());
        say_why(
            &mut self.error,
            self.program,
            ended.status,
            ended.output,
            ended.refused,
        );
        let lacking = self.told_lacking();
        self.say(lacking);
        let verdict = self.told_verdict(ended);
        self.say(verdict);
        let length = self.told_length(ended);
        self.say(length);
    }

    /// Says lines, if there are some.
    fn say(&mut self, lines: Result<Option<Vec<u8>>, AllocError>) {
        if let Ok(Some(lines)) = lines {
            let _ = write_whole(&mut self.error, lines.as_slice());
        }
    }

    /// What the words name that is not there.
    fn told_lacking(&self) -> Result<Option<Vec<u8>>, AllocError> {
        let lines = match self.lacking {
            None => return Ok(None),
            Some(Lacking::Instr) => advice::no_instr(self.alloc, self.program, &self.named)?,
            Some(Lacking::Kind) => {
                advice::no_kind(self.alloc, self.program, &self.named, self.is_hybrid())?
            }
        };
        Ok(Some(lines))
    }

    /// What is to be done where the machine is refused, or a question is open.
    fn told_verdict(&self, ended: &Ended<'_>) -> Result<Option<Vec<u8>>, AllocError> {
        let Some(desc) = self.named.desc else {
            return Ok(None);
        };
        match (ended.status, self.named.saved, self.named.cert) {
            (Status::Refused, Some(cert), _) if self.is_plain_file(cert) => {
                Ok(Some(advice::explain(self.alloc, self.program, desc, cert)?))
            }
            (Status::Unsettled, Some(cert), _) | (Status::Unsettled, None, Some(cert)) => {
                self.told_open(desc, cert, ended.last)
            }
            _ => Ok(None),
        }
    }

    /// What is to be done where the last bytes of standard output tell an open question.
    fn told_open(
        &self,
        desc: &str,
        cert: &str,
        last: &[u8],
    ) -> Result<Option<Vec<u8>>, AllocError> {
        let Ok(last) = str::from_utf8(last) else {
            return Ok(None);
        };
        let Some(open) = open_of(last) else {
            return Ok(None);
        };
        let mut lines = advice::more_budget(
            self.alloc,
            self.program,
            &open,
            desc,
            cert,
            self.is_hybrid(),
        )?;
        if self.is_plain_file(cert) {
            let other = advice::other_solver(self.alloc, self.program, &open, desc, cert)?;
            lines.extend_from_slice(other.as_slice())?;
        }
        Ok(Some(lines))
    }

    /// How long the certificate is that was saved, where that is worth a word.
    fn told_length(&self, ended: &Ended<'_>) -> Result<Option<Vec<u8>>, AllocError> {
        match ended.saved {
            None => Ok(None),
            Some(bytes) => advice::long(self.alloc, self.program, &self.named, bytes),
        }
    }

    /// Whether a certificate is of `hcheck`: by the words, or by that which was read.
    fn is_hybrid(&self) -> bool {
        match self.seen.held.try_borrow() {
            Ok(read) => self.named.is_hybrid || read.is_hybrid,
            Err(_) => self.named.is_hybrid,
        }
    }

    /// Whether a plain file has a name.
    fn is_plain_file(&self, name: &str) -> bool {
        match fs::metadata(self.seen.files, name) {
            Ok(data) => data.is_file(),
            Err(_) => false,
        }
    }

    /// What is to be done where a command is refused so.
    fn advice_on(&self, refusal: &RefusalLine) -> Result<Option<Vec<u8>>, AllocError> {
        match (refusal, self.named.desc, self.named.cert) {
            (RefusalLine::Room(wanted, free), _, _) => Ok(Some(advice::no_room(
                self.alloc,
                self.program,
                self.named.room,
                *wanted,
                *free,
            )?)),
            (RefusalLine::Certificate(why), Some(desc), Some(cert)) if is_stale(why) => {
                let hybrid = self.is_hybrid();
                Ok(Some(advice::stale(self.alloc, self.program, desc, cert, hybrid)?))
            }
            _ => Ok(None),
        }
    }
}

/// Whether a certificate that is refused so may be right of another description.
fn is_stale(why: &CertificateLine) -> bool {
    match why {
        CertificateLine::Instr(_)
        | CertificateLine::Missing(..)
        | CertificateLine::Extra(_)
        | CertificateLine::Pair(_)
        | CertificateLine::Closed(_)
        | CertificateLine::Step(..) => true,
        CertificateLine::Long
        | CertificateLine::Token(_)
        | CertificateLine::Grammar(_)
        | CertificateLine::Version
        | CertificateLine::Spent(_)
        | CertificateLine::Delete(_) => false,
    }
}

impl<R: Files + Clock, E: Write + Drop> Watcher for Watching<'_, '_, R, E> {
    /// Warns before the first question, and tells which is next.
    fn asks(&mut self, name: &[u8], kind: Kind, left: usize) {
        if !self.has_asked {
            self.has_asked = true;
            warn(
                self.alloc,
                self.seen.files,
                &mut self.error,
                self.program,
                &self.named,
            );
        }
        if let Ok(mut ticker) = self.seen.ticker.try_borrow_mut() {
            ticker.ask(name, kind, left);
        }
    }
}

impl<R: Files + Clock, E: Write + Drop> SearchWatcher for Watching<'_, '_, R, E> {
    /// Tells how far the search has come, from time to time.
    fn goes_on(&mut self, learned: usize, budget: u32) {
        if let Ok(mut ticker) = self.seen.ticker.try_borrow_mut() {
            ticker.search(learned, budget);
        }
    }
}

impl<R: Files + Clock, E: Write + Drop> ReadWatcher for Watching<'_, '_, R, E> {
    /// Tells how far the file that was read last has been verified, from time to time.
    fn reads(&mut self, done: usize, all: usize) {
        if let Ok(mut ticker) = self.seen.ticker.try_borrow_mut() {
            if let Ok(read) = self.seen.held.try_borrow() {
                ticker.read(read.name.as_str(), done as u64, all as u64);
            }
        }
    }
}

impl<R: Files + Clock, E: Write + Drop> RunWatcher for Watching<'_, '_, R, E> {
    /// Tells how far the run has come, from time to time.
    fn goes(&mut self, pace: Pace) {
        if let Ok(mut ticker) = self.seen.ticker.try_borrow_mut() {
            ticker.run(pace);
        }
    }
}

impl<R: Files + Clock, E: Write + Drop> StopWatcher for Watching<'_, '_, R, E> {
    /// Keeps where the refusal points and what is to be done, if there is memory for it.
    fn stops(&mut self, stop: &Stop) {
        let Stop::Refused(Refusal::Line(refusal)) = stop else {
            return;
        };
        if let Ok(read) = self.seen.held.try_borrow() {
            if let Ok(Some(lines)) = pointed(self.alloc, refusal, &read) {
                self.pointed = lines;
            }
        }
        if let Ok(Some(lines)) = self.advice_on(refusal) {
            self.advice = lines;
        }
    }
}

impl<R: Files + Clock, E: Write + Drop> WordsWatcher for Watching<'_, '_, R, E> {
    /// Keeps it.
    fn lacks(&mut self, lacking: Lacking) {
        self.lacking = Some(lacking);
    }
}

impl<R: Files + Clock, E: Write + Drop> VerdictWatcher for Watching<'_, '_, R, E> {
    /// Tells the verdict on standard error.
    fn unsaved(&mut self, judged: &JudgedMachine) {
        if let Ok(mut ticker) = self.seen.ticker.try_borrow_mut() {
            ticker.erase();
        }
        let _ = tell_verdict(&mut self.verdicts, judged);
    }
}
