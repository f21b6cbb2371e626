//! `gen`: a description and images that are made of a number, classified and run.
//!
//! The input is made (`whole`), and its certificate is found and its text made whole. The text is saved. Where the
//! verdict accepts the machine the images run as guests of one monitor, as under `run`, and then the text of the command is
//! put. Memory is taken before the save, and for the guests behind it, before their first turn.

ghost use Rattle.std.specs.Prelude.{◌≡◌, ◌≤◌, IfOk, OnOk, OnErr};
ghost use Rattle.pg_cert.specs.declared.cert.Family.TheVariants.{Plain};
ghost use Rattle.pg_cert.specs.declared.report.Verdict.TheVariants.{Accepted};
ghost use Rattle.pg_edge.specs.Sink.{Puts};
ghost use Rattle.pg_cmd_gen.specs.Generated.{IsGenerated};
ghost use Rattle.pg_cmd_gen.specs.Images.{images_of};
ghost use Rattle.pg_run_guests.specs.Setting.{SetUp};
ghost use Rattle.pg_cmd_certs.specs.Judged.{verdict_on};
ghost use Rattle.pg_cmd_base.specs.Able.{IsAble};
ghost use Rattle.pg_cmd_base.specs.Commands.{Carries};
ghost use Rattle.pg_cmd_base.specs.World.{Keeps, around};
ghost use Rattle.pg_cmd_gen.specs.Generating.{HaveRunBy, RanBy, gen_budget, gen_command, generated_text};
ghost use Rattle.pg_cmd_gen.specs.Plans.{judged_input, run_of_plan};
ghost use Rattle.pg_cmd_certs.specs.Checked.{IsChecked};
ghost use Rattle.pg_type.specs.Accepting.{IsAccepted};

mod plan;

use crate::whole::generate;
use pg_cert::Family;
use pg_classify::Watcher;
use pg_cli_table::GenWords;
use pg_cmd_base::Status;
use pg_cmd_certs::{VerdictWatcher, checked, is_accepted, save_text, status_of};
use pg_edge::{Failed, Shelf, Sink};
use pg_hw::Hardware;
use pg_lang_valid::TypeFault;
use pg_mach_ready::check;
use pg_report::{put_instructions, put_outcome};
use pg_run_guests::{Ran, put_summaries, run_guests};
use plan::GenPlan;
use std::alloc::{AllocError, Global};

/// How many clauses the solver may learn for a question.
const BUDGET: u32 = 20_000;

/// How many turns a guest has before the next has its own.
const SLICE: u64 = 7;

/// How many turns each guest has.
const STEPS: u64 = 1_000;

/// Carries out `gen`. The watcher is told of each question, and of a verdict that could not be saved.
pub fn carry_gen<F: Shelf, S: Sink, H: Hardware, W: Watcher + VerdictWatcher>(
    alloc: Global,
    words: &GenWords,
    shelf: &mut F,
    out: &mut S,
    hw: &mut H,
    watcher: &mut W,
) -> Status
    requires able { IsAble H.Hardware hw.old }
    ensures carries { Carries (gen_command words.now) (around F.Shelf S.Sink H.Hardware shelf.old out.old hw.old)
        (around F.Shelf S.Sink H.Hardware shelf.new out.new hw.new) result }
    ensures keeps { Keeps (gen_command words.now).saved (around F.Shelf S.Sink H.Hardware shelf.old out.old hw.old)
        (around F.Shelf S.Sink H.Hardware shelf.new out.new hw.new) }
    ensures fixed { H.fixed hw.new ≡ H.fixed hw.old }
{
    let plan = match prepare_gen(alloc, words, watcher) {
        Ok(plan) => plan,
        Err(_) => return Status::Memory,
    };
    match save_text(shelf, &words.cert, plan.cert.text.as_slice()) {
        Ok(()) => {}
        Err(_) => {
            watcher.unsaved(&plan.cert.judged);
            return Status::WriteFault;
        }
    }
    let ran = match run_plan(alloc, &plan, hw) {
        Ok(ran) => ran,
        Err(_) => return Status::Memory,
    };
    match put_generated(out, words, &plan, &ran, hw) {
        Ok(()) => status_of(plan.cert.judged.report.verdict()),
        Err(_) => Status::WriteFault,
    }
}

/// The input of a number and a certificate of its description.
fn prepare_gen<W: Watcher>(
    alloc: Global,
    words: &GenWords,
    watcher: &mut W,
) -> Result<GenPlan, AllocError>
    ensures desc { IfOk result (λ p. IsGenerated words.now.number words.now.count p.cert.judged.machine.desc) }
    ensures images { IfOk result (λ p. p.images ≡ images_of words.now.number words.now.count) }
    ensures checked { IfOk result (λ p. IsChecked p.cert.judged.machine.desc Plain gen_budget p.cert.text.items p.cert.judged.report) }
{
    let made = generate(alloc, words.number, words.count.instrs())?;
    let machine = match check(alloc, made.desc) {
        Ok(machine) => machine,
        Err((_desc, TypeFault::Memory)) => return Err(AllocError),
        Err((_desc, _fault)) => unreachable!(),
    };
    let cert = checked(alloc, machine, Family::Plain, BUDGET, watcher)?;
    Ok(GenPlan {
        cert,
        images: made.images,
    })
}

/// The guests of an input, behind their last turn, where the verdict lets them run. The error is out of memory, and then no
/// turn was made.
fn run_plan<'m, H: Hardware>(
    alloc: Global,
    plan: &'m GenPlan,
    hw: &mut H,
) -> Result<Option<Ran<'m>>, AllocError>
    requires accepts { verdict_on (judged_input plan.now) ≡ Accepted → IsAccepted plan.now.cert.judged.machine.desc }
    requires able { IsAble H.Hardware hw.old }
    ensures ran { OnOk result (RanBy (verdict_on (judged_input plan.now)) (run_of_plan plan.now) (H.machinery hw.old)
        (H.machinery hw.new)) }
    ensures have_run { IfOk result (λ ran. HaveRunBy (verdict_on (judged_input plan.now)) (run_of_plan plan.now) ran (H.machinery hw.new)) }
    ensures accepted { OnErr result (verdict_on (judged_input plan.now) ≡ Accepted) }
    ensures set_up { OnErr result (SetUp (run_of_plan plan.now) (H.machinery hw.old) (H.machinery hw.new)) }
    ensures fixed { H.fixed hw.new ≡ H.fixed hw.old }
{
    let judged = &plan.cert.judged;
    if !is_accepted(judged.report.verdict()) {
        return Ok(None);
    }
    let accepted = pg_type::Accepted::of(&judged.machine);
    match run_guests(alloc, accepted, plan.images.as_slice(), SLICE, STEPS, hw) {
        Ok(ran) => Ok(Some(ran)),
        Err(refused) => Err(refused),
    }
}

/// Puts the text of the command: how many instructions there are, the verdict in a line, and the summary of the guests, where
/// they ran.
fn put_generated<S: Sink, H: Hardware>(
    out: &mut S,
    words: &GenWords,
    plan: &GenPlan,
    ran: &Option<Ran<'_>>,
    hw: &H,
) -> Result<(), Failed>
    requires images { plan.now.images ≡ images_of words.now.number words.now.count }
    requires have_run { HaveRunBy (verdict_on (judged_input plan.now)) (run_of_plan plan.now) ran.now (H.machinery hw.now) }
    ensures { Puts (S.written out.old) (S.written out.new) (S.faults out.old) (S.faults out.new)
        (generated_text words.now plan.now.cert.judged.machine.desc (verdict_on (judged_input plan.now))) result }
{
    let judged = &plan.cert.judged;
    put_instructions(out, words.count.instrs())?;
    put_outcome(out, &judged.machine, &judged.report)?;
    match ran {
        Some(ran) => {
            let (guests, turns, direct) = (ran.guests(), ran.turns(), ran.direct());
            put_summaries(out, &judged.machine, guests, turns, direct, hw)
        }
        None => Ok(()),
    }
}
