//! What there is to tell, found in files; and the mended description, saved before any of it is told.

ghost use Rattle.std.specs.Prelude.{◌≡◌, ◌≤◌, ℕ, IfOk, IfErr, IfSome, None, Option};
ghost use Rattle.pg_edge.specs.Shelf.{Files};
ghost use Rattle.pg_cmd_certs.specs.Views.{judged};
ghost use Rattle.pg_out_reasons.specs.Mending.{IsMendedBy};
ghost use Rattle.pg_cmd_base.specs.Steps.{Came};
ghost use Rattle.pg_prog_explain.specs.Explaining.{ExplainDue, HaltsAt, LacksNamed, MendsOnly, explain_words};

use crate::load::{Loaded, load};
use crate::mend::{MendFault, mend};
use crate::request::Request;
use pg_cmd_base::Stop;
use pg_cmd_certs::JudgedMachine;
use pg_edge::Shelf;
use pg_out_guarded::Layout;
use pg_out_reasons::{Part, Reasons, Wish, tell_reasons};
use std::alloc::{AllocError, Global};

/// What there is to tell.
#[derive(Drop)]
pub struct Found {
    /// The machine, and what is kept of its certificate.
    pub judged: JudgedMachine,
    /// What is told of them.
    pub told: Reasons,
}

/// Why nothing is told.
#[derive(Drop)]
pub enum Halt {
    /// A file is not there, is not read or is refused, or memory was.
    Stopped(Stop),
    /// The description has no instruction of the name.
    Lacking,
    /// The mended description could not be saved.
    Unsaved,
}

/// What is told of the machine that is asked for; the mended description is saved where that is asked for, and `layout` becomes its
/// layout.
pub fn find<F: Shelf>(
    alloc: Global,
    request: &Request<'_>,
    shelf: &mut F,
    layout: &mut Option<Layout>,
) -> Result<Found, Halt>
    ensures due { IfOk result (λ f. ExplainDue (explain_words request.now) (F.files shelf.old) (Came (judged f.judged))) }
    ensures mends { IfOk result (λ f. MendsOnly (explain_words request.now).mend (judged f.judged) (F.files shelf.old) (F.files shelf.new)) }
    ensures halts { IfErr result (HaltsAt (explain_words request.now) (F.files shelf.old) (F.files shelf.new)
        (F.reads shelf.old) (F.reads shelf.new) (F.saves shelf.old) (F.saves shelf.new)) }
    ensures reads { F.reads shelf.old ≤ F.reads shelf.new }
    ensures saves { F.saves shelf.old ≤ F.saves shelf.new }
{
    let loaded = match load(alloc, shelf, request) {
        Ok(loaded) => loaded,
        Err(stop) => return Err(Halt::Stopped(stop)),
    };
    match tell(alloc, request, shelf, &loaded, layout) {
        Ok(told) => Ok(Found {
            judged: loaded.judged,
            told,
        }),
        Err(halt) => Err(halt),
    }
}

/// What is told of the machine that was loaded; the mended description is saved where that is asked for.
fn tell<F: Shelf>(
    alloc: Global,
    request: &Request<'_>,
    shelf: &mut F,
    loaded: &Loaded,
    layout: &mut Option<Layout>,
) -> Result<Reasons, Halt>
    requires due { ExplainDue (explain_words request.now) (F.files shelf.old) (Came (judged loaded.now.judged)) }
    ensures mends { IfOk result (λ _. MendsOnly (explain_words request.now).mend (judged loaded.now.judged) (F.files shelf.old) (F.files shelf.new)) }
    ensures halts { IfErr result (HaltsAt (explain_words request.now) (F.files shelf.old) (F.files shelf.new)
        (F.reads shelf.old) (F.reads shelf.new) (F.saves shelf.old) (F.saves shelf.new)) }
    ensures reads { F.reads shelf.new ≡ F.reads shelf.old }
    ensures saves { F.saves shelf.old ≤ F.saves shelf.new }
{
    let told = match wished(alloc, request, &loaded.judged) {
        Ok(told) => told,
        Err(halt) => return Err(halt),
    };
    match mend(alloc, shelf, request, loaded, &told) {
        Ok(saved) => {
            *layout = saved;
            Ok(told)
        }
        Err(MendFault::Memory) => Err(Halt::Stopped(Stop::Memory)),
        Err(MendFault::Unsaved) => Err(Halt::Unsaved),
    }
}

/// What is told of what the words ask for.
fn wished(alloc: Global, request: &Request<'_>, machine: &JudgedMachine) -> Result<Reasons, Halt>
    ensures mended { IfOk result (λ told. IfSome told.mended (λ g. IsMendedBy machine.now.machine.desc machine.now.report g.machine.desc)) }
    ensures halts { (told : Option Files) (reads saves : ℕ) → ExplainDue (explain_words request.now) told (Came (judged machine.now)) →
        IfErr result (HaltsAt (explain_words request.now) told told reads reads saves saves) }
{
    match part_of(machine, request) {
        Some(part) => match reasons(alloc, request, machine, part) {
            Ok(told) => Ok(told),
            Err(_) => Err(Halt::Stopped(Stop::Memory)),
        },
        None => Err(Halt::Lacking),
    }
}

/// What is told of a machine and what is kept of its certificate.
fn reasons(
    alloc: Global,
    request: &Request<'_>,
    judged: &JudgedMachine,
    part: Part,
) -> Result<Reasons, AllocError>
    ensures { IfOk result (λ told. IfSome told.mended (λ g. IsMendedBy judged.now.machine.desc judged.now.report g.machine.desc)) }
{
    let wish = Wish {
        part,
        is_readable: request.options.is_readable,
    };
    let budget = request.options.budget();
    tell_reasons(alloc, &judged.machine, &judged.report, wish, budget)
}

/// What of the report the words ask for. None where the description has no such instruction.
fn part_of(judged: &JudgedMachine, request: &Request<'_>) -> Option<Part>
    ensures { result ≡ None → LacksNamed (explain_words request.now) judged.now.machine.desc }
{
    let Some(name) = request.instr else {
        return Some(Part::All);
    };
    let instr = judged.machine.find(name)?;
    match request.kind {
        None => Some(Part::Instr(instr)),
        Some(kind) => Some(Part::Kind(instr, kind)),
    }
}
