//! How far a text has been read.
//!
//! A line is taken by what it says: `steps` and `states` have the lines of the finding that is open; here are the first line,
//! headers, which close one finding and open the next, and the last line.

ghost use Rattle.std.specs.Prelude.{◌≡◌, ◌+◌, ◌*◌, ◌<◌, ◌≤◌, ◌^◌, ◌==◌, length, slice_get, true, map, Some, IfOk, IfSome, Ok};
ghost use Rattle.pg_cert.specs.Verdicts.{kind_count};
ghost use Rattle.pg_proof.specs.State.{begun as log_begun};
ghost use Rattle.pg_cert_drawn.specs.Drawn.{drawn_of};
ghost use Rattle.pg_verify.specs.Taking.{closed, closed_pair, marked, opened_with, shows_due, due_instr, due_kind, all_findings, may_close, instr_named, clauses_at, placed, named, after_first, after_header, after_end, after_form, is_first_due, ended};
ghost use Rattle.pg_verify.specs.Feeding.{begun, kept};
ghost use Rattle.pg_verify.specs.Taking.{reopened, after_step, after_remove, after_state_line, after_line};
ghost use Rattle.pg_verify.specs.Seen.{numbered, with_part, IsTold};
ghost use Rattle.pg_verify.specs.Reader.{BothStates};
ghost use Rattle.pg_verify.specs.declared.fault.VerifyFault.TheVariants.{Missing};
ghost use Rattle.pg_cert.specs.Texts.{family_of};
ghost use Rattle.pg_cert.specs.Validity.{may_remove};

mod feeding;

use crate::drawing::Drawing;
use crate::families::{family_of, kind_place, may_remove, same_family};
use crate::fault::VerifyFault;
use crate::opened::{Opened, is_fresh, may_close};
use crate::states::{StatePart, take_part};
use crate::steps::{take_removal, take_step};
pub use feeding::CERT_BYTES;
use pg_ask::ask;
use pg_cert::{Family, Found, Heading, Line, LineFault, Mark, MarkList, parse_line};
use pg_mach_ready::Machine;
use pg_proof::{Checker, Step};
use pg_replay::replay;
use pg_type::Kind;
use pg_word::Sparse;
use std::alloc::{AllocError, Global};
use std::marker::Model;
use std::mem;

/// How far a text has been read, while it is not refused.
#[derive(Drop)]
pub struct Reading<'m> {
    machine: &'m Machine,
    family: Family,
    removes: bool,
    marks: MarkList,
    opened: Opened,
    lines: u32,
    fed: u32,
    rest: Vec<u8>,
    alloc: Global,
}

impl<'m> Model for Reading<'m> {
    ghost use Rattle.std.specs.Prelude.{◌+◌, ◌≤◌, ◌^◌, length, map};
    ghost use Rattle.pg_verify.specs.Reader.{Progress};
    ghost use Rattle.pg_verify.specs.Feeding.{kept, most_bytes};
    ghost use Rattle.pg_verify.specs.Seen.{open_of, numbered};
    ghost use Rattle.pg_ast.specs.contracts.tree.Stmt as s;
    ghost use Rattle.std.specs.Coded.{codes};

    ghost Value = { Progress };

    ghost coded = { Prim.hlevel (codes, s.the_row.coded) };

    ghost view = { λ r. record { desc = r.machine.now.desc; family = r.family; removes = r.removes; marks = map kept r.marks; opened = open_of r.opened; lines = r.lines; fed = r.fed; rest = r.rest.items } };

    ghost invariant = { λ r. (r.lines + length r.rest.items ≤ r.fed + 1) × (r.fed ≤ most_bytes) × (numbered (open_of r.opened) ≤ 2 ^ 31 + r.lines) };
}

impl<'m> Reading<'m> {
    /// Before the first byte of a text, of this family.
    pub fn new(alloc: Global, machine: &'m Machine, family: Family) -> Reading<'m>
        ensures { result ≡ begun machine.now.desc family }
    {
        Reading {
            machine,
            family,
            removes: false,
            marks: MarkList::new(alloc),
            opened: Opened::Fresh,
            lines: 0,
            fed: 0,
            rest: Vec::new(alloc),
            alloc,
        }
    }

    /// The mark of the finding that was open. The error is out of memory.
    fn keep(&mut self, mark: Mark) -> Result<(), VerifyFault>
        ensures told { IsTold (Ok (marked self.old (kept mark))) self.new result }
        ensures family { self.new.family ≡ self.old.family }
    {
        self.marks.push(mark)?;
        self.opened = Opened::Between;
        Ok(())
    }

    /// Whether two states show the kind that is due of the instruction that is due.
    fn shows_due(&self, s: &Sparse, t: &Sparse) -> bool
        ensures { result ≡ shows_due self.now (drawn_of s.now) (drawn_of t.now) }
    {
        let instr = self.due_instr();
        if self.machine.count() <= instr {
            return false;
        }
        replay(self.machine, instr, self.due_kind(), s, t)
    }

    /// The number of the instruction of which a finding is due.
    fn due_instr(&self) -> usize
        ensures { result ≡ due_instr self.now }
    {
        self.marks.len() / self.family.kinds().len()
    }

    /// The kind of which a finding is due.
    fn due_kind(&self) -> Kind
        ensures { result ≡ due_kind self.now }
    {
        let kinds = self.family.kinds();
        kinds[self.marks.len() % kinds.len()]
    }

    /// That the finding which is due is missing.
    fn missing(&self) -> VerifyFault
        ensures { result ≡ Missing (due_instr self.now) (due_kind self.now) }
    {
        VerifyFault::Missing(self.due_instr(), self.due_kind())
    }

    /// The two states of the finding that was open are tried.
    fn close_pair(&mut self, header: u32, s: Sparse, t: Sparse) -> Result<(), VerifyFault>
        ensures told { IsTold (closed_pair self.old header (BothStates (drawn_of s) (drawn_of t))) self.new result }
        ensures family { self.new.family ≡ self.old.family }
    {
        if self.shows_due(&s, &t) {
            self.keep(Mark::Shown(s, t))
        } else {
            Err(VerifyFault::BadPair(header))
        }
    }

    /// The finding that is open, if one is, is closed: its mark is kept, or it is refused.
    #[tactic(auto, unfolding(crate::specs::Taking::closed))]
    fn close(&mut self) -> Result<(), VerifyFault>
        requires { may_close self.old.opened ≡ true }
        ensures told { IsTold (closed self.old) self.new result }
        ensures family { self.new.family ≡ self.old.family }
    {
        match mem::replace(&mut self.opened, Opened::Between) {
            Opened::Refuting(header, checker) => {
                if checker.closed() {
                    self.keep(Mark::Refuted)
                } else {
                    Err(VerifyFault::NotClosed(header))
                }
            }
            Opened::Spending(header, budget, count, _) => {
                if count == budget {
                    self.keep(Mark::Spent(budget))
                } else {
                    Err(VerifyFault::BadSpent(header))
                }
            }
            Opened::Showing(header, Drawing::BothStates(s, t)) => self.close_pair(header, s, t),
            Opened::Showing(_, _) => Ok(()),
            Opened::Fresh => Ok(()),
            Opened::Between => Ok(()),
            Opened::Ended => Ok(()),
        }
    }

    /// A first line, where one is due.
    #[tactic(auto, unfolding(crate::specs::Taking::after_first))]
    fn take_first(&mut self, heading: Heading) -> Result<(), VerifyFault>
        ensures { IsTold (after_first self.old heading) self.new result }
    {
        if !self.is_first_due(family_of(heading)) {
            return Err(VerifyFault::Grammar(self.lines));
        }
        self.opened = Opened::Between;
        self.removes = may_remove(heading);
        Ok(())
    }

    /// Whether a first line of this family is due.
    fn is_first_due(&self, family: Family) -> bool
        ensures { result ≡ is_first_due self.now family }
    {
        is_fresh(&self.opened) && same_family(family, self.family)
    }

    /// A finding opens, of the instruction of this number and this kind. The error is out of memory.
    fn open(&mut self, instr: usize, kind: Kind, found: Found) -> Result<(), VerifyFault>
        requires { instr < length self.old.desc.instrs }
        ensures { IsTold (opened_with self.old instr kind found) self.new result }
    {
        self.opened = match found {
            Found::Refuted => Opened::Refuting(
                self.lines,
                checker_of(self.alloc, self.machine, instr, kind)?,
            ),
            Found::Shown => Opened::Showing(self.lines, Drawing::NoState),
            Found::Spent(budget) => Opened::Spending(
                self.lines,
                budget,
                0,
                checker_of(self.alloc, self.machine, instr, kind)?,
            ),
        };
        Ok(())
    }

    /// A finding of an instruction and a kind, by their places, opens where it is the one that is due.
    fn place(
        &mut self,
        instr: usize,
        kind: Kind,
        place: usize,
        found: Found,
    ) -> Result<(), VerifyFault>
        requires instr { instr < length self.old.desc.instrs }
        requires place { place < kind_count self.old.family }
        ensures { IsTold (placed self.old instr kind place found) self.new result }
    {
        let number = instr * self.family.kinds().len() + place;
        if number < self.marks.len() {
            return Err(VerifyFault::Extra(self.lines));
        }
        if self.marks.len() < number {
            return Err(self.missing());
        }
        self.open(instr, kind, found)
    }

    /// The header of a finding.
    #[tactic(auto, unfolding(crate::specs::Taking::after_header))]
    fn take_header(&mut self, name: &[u8], kind: Kind, found: Found) -> Result<(), VerifyFault>
        ensures { IsTold (after_header self.old name.now kind found) self.new result }
    {
        if !may_close(&self.opened) {
            return Err(VerifyFault::Grammar(self.lines));
        }
        let place = match kind_place(self.family, kind) {
            None => return Err(VerifyFault::Grammar(self.lines)),
            Some(place) => place,
        };
        self.close()?;
        match instr_named(self.machine, name) {
            None => Err(VerifyFault::NoSuchInstr(self.lines)),
            Some(instr) => self.place(instr, kind, place, found),
        }
    }

    /// The last line.
    #[tactic(auto, unfolding(crate::specs::Taking::after_end))]
    fn take_end(&mut self) -> Result<(), VerifyFault>
        ensures { IsTold (after_end self.old) self.new result }
    {
        if !may_close(&self.opened) {
            return Err(VerifyFault::Grammar(self.lines));
        }
        self.close()?;
        if self.marks.len() != self.machine.count() * self.family.kinds().len() {
            return Err(self.missing());
        }
        self.opened = Opened::Ended;
        Ok(())
    }

    /// A line that adds a step to the log that is open.
    fn add(&mut self, step: &Step) -> Result<(), VerifyFault>
        requires slack { numbered self.old.opened + 1 ≤ 2 ^ 31 + self.old.lines }
        ensures { IsTold (reopened self.old (after_step self.old.lines step.now self.old.opened)) self.new result }
    {
        take_step(&mut self.opened, self.lines, step)
    }

    /// A line that takes clauses away from the log that is open.
    fn remove(&mut self, numbers: &[u32]) -> Result<(), VerifyFault>
        requires slack { numbered self.old.opened + 1 ≤ 2 ^ 31 + self.old.lines }
        ensures { IsTold (reopened self.old (after_remove self.old.lines self.old.removes numbers.now self.old.opened)) self.new result }
    {
        take_removal(&mut self.opened, self.lines, self.removes, numbers)
    }

    /// A line of a state of the pair that is open.
    fn draw(&mut self, part: StatePart<'_>) -> Result<(), VerifyFault>
        requires slack { numbered self.old.opened + 1 ≤ 2 ^ 31 + self.old.lines }
        ensures { IsTold (reopened self.old (after_state_line self.old.lines (with_part part.entry) self.old.opened)) self.new result }
    {
        take_part(self.alloc, &mut self.opened, self.lines, part)
    }

    /// A line, by what it says.
    #[tactic(auto, unfolding(crate::specs::Taking::after_form))]
    fn take_form(&mut self, line: &Line) -> Result<(), VerifyFault>
        requires slack { numbered self.old.opened + 1 ≤ 2 ^ 31 + self.old.lines }
        ensures { IsTold (after_form self.old line.now) self.new result }
    {
        match line {
            Line::First(heading) => self.take_first(*heading),
            Line::Header(name, kind, found) => self.take_header(name.as_slice(), *kind, *found),
            Line::Step(step) => self.add(step),
            Line::Remove(numbers) => self.remove(numbers.as_slice()),
            Line::Size(size) => self.draw(StatePart::Size(*size)),
            Line::Psw(psw) => self.draw(StatePart::Psw(*psw)),
            Line::Cells(first, words) => self.draw(StatePart::Cells(*first, words.as_slice())),
            Line::End => self.take_end(),
        }
    }

    /// The next line, of these bytes, its LF among them.
    #[tactic(auto, unfolding(crate::specs::Taking::after_line, crate::specs::Taking::after_said))]
    fn take_line(&mut self, bytes: &[u8]) -> Result<(), VerifyFault>
        requires room { self.old.lines + length self.old.rest ≤ self.old.fed }
        ensures { IsTold (after_line self.old bytes.now) self.new result }
    {
        self.lines += 1;
        match parse_line(self.alloc, self.machine.shape(), bytes) {
            Ok(line) => self.take_form(&line),
            Err(LineFault::Token) => Err(VerifyFault::Token(self.lines)),
            Err(LineFault::Grammar) => Err(VerifyFault::Grammar(self.lines)),
            Err(LineFault::Version(family)) => {
                if self.is_first_due(family) {
                    Err(VerifyFault::Version)
                } else {
                    Err(VerifyFault::Grammar(self.lines))
                }
            }
            Err(LineFault::Memory) => Err(VerifyFault::Memory),
        }
    }
}

/// The number of the instruction of a name, if there is one.
fn instr_named(machine: &Machine, name: &[u8]) -> Option<usize>
    ensures named { result ≡ instr_named machine.now.desc name.now }
    ensures within { IfSome result (λ instr. instr < length machine.now.desc.instrs) }
{
    for instr in 0..machine.count() {
        if machine.name(instr) == name {
            return Some(instr);
        }
    }
    None
}

/// A checker of the question of an instruction and a kind.
fn checker_of(
    alloc: Global,
    machine: &Machine,
    instr: usize,
    kind: Kind,
) -> Result<Checker, AllocError>
    requires { instr < length machine.now.desc.instrs }
    ensures begun { IfOk result (λ checker. checker ≡ log_begun (clauses_at machine.now.desc kind (slice_get machine.now.desc.instrs instr))) }
    ensures few { IfOk result (λ checker. length checker.held ≤ 2 ^ 31) }
{
    let asked = ask(alloc, machine, instr, kind)?;
    Checker::new(alloc, asked.cnf())
}
