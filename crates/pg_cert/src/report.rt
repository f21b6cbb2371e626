//! What is kept of findings, and the verdict of it.

ghost use Rattle.std.specs.Prelude.{◌≡◌, ◌+◌, ◌*◌, ◌-◌, ◌/◌, ◌<◌, ◌≤◌, length, map, not, position, None, IfOk, IfSome, MatchOption};
ghost use Rattle.std.specs.List.{list_any, list_all};
ghost use Rattle.pg_cert.specs.Verdicts.{mark_of, marks_of, kind_count, is_refuted, is_shown, is_spent, breaks, is_settled, first_where, first_breaking, first_unsettled, first_spent, verdict_of, kinds_of};

use crate::cert::{Cert, Family, Finding};
use pg_type::Kind;
use pg_word::{CellList, Sparse};
use sqlite_items::Items;
use std::alloc::{AllocError, Global};

/// What is kept of one finding.
#[derive(Debug, Drop)]
pub enum Mark {
    /// No states show the kind.
    Refuted,
    /// These two states show it.
    Shown(Sparse, Sparse),
    /// It is open after so many steps.
    Spent(u32),
}

/// Marks in order.
pub type MarkList = Items<Mark>;

/// What is kept of a certificate.
#[derive(Debug, Drop)]
pub struct Report {
    /// Which kinds were asked about.
    pub family: Family,
    /// For each instruction in order, and each kind in order, one mark.
    pub marks: MarkList,
}

/// What follows for a machine. Instructions are numbered from 0.
#[derive(Clone, Copy, Debug, PartialEq, Eq)]
pub enum Verdict {
    /// Each instruction is privileged or not sensitive: a monitor may run the machine.
    Accepted,
    /// This instruction is the first that is known not to be privileged and to be sensitive.
    Refused(usize),
    /// None is, and this is the first instruction of which it is open whether it is privileged or not sensitive; and the
    /// first of its kinds that is open.
    Unsettled(usize, Kind),
}

/// The same state once more.
fn copied(alloc: Global, state: &Sparse) -> Result<Sparse, AllocError>
    ensures { IfOk result (λ copy. copy ≡ state.now) }
{
    let cells = Vec::from_slice(alloc, state.cells.as_slice())?;
    Ok(Sparse::new(state.size, state.psw, CellList::from_vec(cells)))
}

/// The mark of a finding.
fn mark_of(alloc: Global, finding: &Finding) -> Result<Mark, AllocError>
    ensures { IfOk result (λ mark. mark ≡ mark_of finding.now) }
{
    match finding {
        Finding::Refuted(_) => Ok(Mark::Refuted),
        Finding::Shown(first, second) => Ok(Mark::Shown(
            copied(alloc, first)?,
            copied(alloc, second)?,
        )),
        Finding::Spent(budget, _) => Ok(Mark::Spent(*budget)),
    }
}

/// The report of a certificate: each finding's mark, in order. It costs the number of findings and the length of their states.
pub fn report_of(alloc: Global, cert: &Cert) -> Result<Report, AllocError>
    ensures family { IfOk result (λ report. report.family ≡ cert.now.family) }
    ensures marks { IfOk result (λ report. report.marks ≡ map mark_of cert.now.findings) }
{
    let mut marks = MarkList::new(alloc);
    for finding in cert.findings.as_slice() {
        marks.push(mark_of(alloc, finding)?)?;
    }
    Ok(Report {
        family: cert.family,
        marks,
    })
}

impl Mark {
    /// No states show the kind.
    fn is_refuted(&self) -> bool
        ensures { result ≡ is_refuted self.now }
    {
        matches!(self, Mark::Refuted)
    }

    /// Two states show the kind.
    fn is_shown(&self) -> bool
        ensures { result ≡ is_shown self.now }
    {
        matches!(self, Mark::Shown(_, _))
    }

    /// The question is open.
    fn is_spent(&self) -> bool
        ensures { result ≡ is_spent self.now }
    {
        matches!(self, Mark::Spent(_))
    }
}

/// Whether one of these is shown.
fn any_shown(marks: &[Mark]) -> bool
    ensures { result ≡ list_any is_shown marks.now }
{
    marks.iter().any(|mark| mark.is_shown())
}

/// Whether all of these are refuted.
fn all_refuted(marks: &[Mark]) -> bool
    ensures { result ≡ list_all is_refuted marks.now }
{
    marks.iter().all(|mark| mark.is_refuted())
}

/// Whether marks of one instruction say that it is not privileged and is sensitive.
fn breaks(marks: &[Mark]) -> bool
    ensures { result ≡ breaks marks.now }
{
    match marks {
        [] => false,
        [privileged, sensitive @ ..] => privileged.is_shown() && any_shown(sensitive),
    }
}

/// Whether marks of one instruction say that it is privileged or not sensitive.
fn is_settled(marks: &[Mark]) -> bool
    ensures { result ≡ is_settled marks.now }
{
    match marks {
        [] => true,
        [privileged, sensitive @ ..] => privileged.is_refuted() || all_refuted(sensitive),
    }
}

/// The place of the first mark that is spent.
fn spent_place(marks: &[Mark]) -> Option<usize>
    ensures place { result ≡ position is_spent marks.now }
    ensures within { IfSome result (λ place. place < length marks.now) }
{
    marks.iter().position(|mark| mark.is_spent())
}

impl Report {
    /// How many instructions there are.
    fn count(&self) -> usize
        ensures { result ≡ length self.now.marks / kind_count self.now.family }
    {
        self.marks.len() / self.family.kinds().len()
    }

    /// The marks of an instruction.
    fn marks_of(&self, instr: usize) -> &[Mark]
        requires { instr < length self.now.marks / kind_count self.now.family }
        ensures { result.now ≡ marks_of (kind_count self.now.family) self.now.marks instr }
    {
        let kinds = self.family.kinds().len();
        let count = self.marks.len() / kinds;
        prove!(instr < count);
        let from = instr * kinds;
        &self.marks.as_slice()[from..from + kinds]
    }

    /// The first instruction that is known not to be privileged and to be sensitive.
    fn first_breaking(&self) -> Option<usize>
        ensures first { result ≡ first_breaking self.now.family self.now.marks }
    {
        for instr in 0..self.count() {
            if breaks(self.marks_of(instr)) {
                return Some(instr);
            }
        }
        None
    }

    /// The first instruction of which it is open whether it is privileged or not sensitive.
    fn first_unsettled(&self) -> Option<usize>
        ensures first { result ≡ first_unsettled self.now.family self.now.marks }
        ensures within { IfSome result (λ i. i < length self.now.marks / kind_count self.now.family) }
    {
        for instr in 0..self.count() {
            if !is_settled(self.marks_of(instr)) {
                return Some(instr);
            }
        }
        None
    }

    /// The first open kind of an instruction.
    fn first_spent(&self, instr: usize) -> Kind
        requires { instr < length self.now.marks / kind_count self.now.family }
        ensures { result ≡ first_spent self.now.family (marks_of (kind_count self.now.family) self.now.marks instr) }
    {
        match spent_place(self.marks_of(instr)) {
            None => Kind::Privileged,
            Some(place) => self.family.kinds()[place],
        }
    }

    /// The verdict. It names the first instruction that is shown not to be privileged and shown to be sensitive of some kind;
    /// else it accepts where each is privileged or of no sensitive kind; else it names the first instruction that is neither
    /// as far as is known, and its first kind that is open.
    ///
    /// It costs the number of marks, takes no memory and refuses nothing.
    #[tactic(auto, unfolding(crate::specs::Verdicts::verdict_of))]
    pub fn verdict(&self) -> Verdict
        ensures { result ≡ verdict_of self.now.family self.now.marks }
    {
        if let Some(instr) = self.first_breaking() {
            return Verdict::Refused(instr);
        }
        match self.first_unsettled() {
            None => Verdict::Accepted,
            Some(instr) => Verdict::Unsettled(instr, self.first_spent(instr)),
        }
    }
}
