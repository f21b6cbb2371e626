//! How many steps of a run are done that ends where a condition first holds.
//!
//! A hardware is switched on with the image, and the steps are done to count them: who shows the run switches it on anew. A run ends
//! at a trap as a burst does. Where P is looked at, the hardware does one step at a time; where a state is to be still, steps are
//! interpreted (`step_seen`), which tells of each whether it left the state as it was, of those that trap too.
//!
//! The number of steps is found by a run of its own, instead of by one that is told as it goes: so all that is proved of N steps is of
//! that number. A million steps with `--counts` take 0.14 to 0.19 seconds so, and 0.12 without.

ghost use Rattle.std.specs.Prelude.{◌≡◌, ◌≤◌, IfOk};
ghost use Rattle.pg_ast.specs.declared.tree.Desc.{Desc};
ghost use Rattle.pg_hw.specs.Serving.{IsServed};
ghost use Rattle.pg_lang_meaning.specs.States.{IsState};
ghost use Rattle.pg_lang_meaning.specs.Steps.{power_on};
ghost use Rattle.pg_lang_valid.specs.Valid.{IsValid};
ghost use Rattle.pg_prog_trace.specs.Plans.{planned_run};
ghost use Rattle.pg_prog_trace.specs.Until.{EndsAt, IsPart, IsUntil};
ghost use Rattle.pg_prog_trace.specs.declared.request.Until.TheVariants.{At, Still};

use crate::plan::Plan;
use crate::request::Until;
use pg_hw::{Hardware, power_on};
use pg_interp::Frame;
use pg_mach_ready::Machine;
use pg_run_still::step_seen;
use std::alloc::AllocError;

/// The part of a planned run that is done, where something ends it; all of it where nothing does. What the hardware holds then means
/// nothing. The error is out of memory for its cells, and then no step was done.
pub fn part_of<H: Hardware>(
    plan: Plan,
    until: Option<Until>,
    hw: &mut H,
) -> Result<Plan, AllocError>
    requires serves { (d : Desc) → IsValid d → H.serves (H.fixed hw.old) d }
    requires room { 1048575 ≤ H.room (H.fixed hw.old) }
    ensures part { IfOk result (λ p. IsPart until (planned_run plan) (planned_run p)) }
    ensures fixed { H.fixed hw.new ≡ H.fixed hw.old }
{
    let steps = steps_of(&plan, until, hw)?;
    let Plan {
        machine,
        image,
        grant,
        ..
    } = plan;
    Ok(Plan {
        machine,
        image,
        grant,
        steps,
    })
}

/// How many steps of a planned run are done. The error is out of memory for its cells.
fn steps_of<H: Hardware>(plan: &Plan, until: Option<Until>, hw: &mut H) -> Result<u64, AllocError>
    requires serves { (d : Desc) → IsValid d → H.serves (H.fixed hw.old) d }
    requires room { 1048575 ≤ H.room (H.fixed hw.old) }
    ensures ends { let r = planned_run plan.now in
        IfOk result (EndsAt r.desc until r.steps (power_on r.image r.grant)) }
    ensures fixed { H.fixed hw.new ≡ H.fixed hw.old }
{
    match until {
        None => Ok(plan.steps),
        Some(until) => steps_until(plan, until, hw),
    }
}

/// How many are done until something ends it. The error is out of memory for its cells.
fn steps_until<H: Hardware>(plan: &Plan, until: Until, hw: &mut H) -> Result<u64, AllocError>
    requires serves { (d : Desc) → IsValid d → H.serves (H.fixed hw.old) d }
    requires room { 1048575 ≤ H.room (H.fixed hw.old) }
    ensures until { let r = planned_run plan.now in
        IfOk result (IsUntil r.desc until r.steps (power_on r.image r.grant)) }
    ensures fixed { H.fixed hw.new ≡ H.fixed hw.old }
{
    hw.install(plan.grant)?;
    power_on(hw, plan.image.as_slice());
    Ok(count_until(&plan.machine, hw, plan.steps, until))
}

/// How many steps are done from the state of a hardware until something ends them, `most` at most.
fn count_until<H: Hardware>(m: &Machine, hw: &mut H, most: u64, until: Until) -> u64
    requires served { IsServed (H.serves (H.fixed hw.old)) m.now.desc }
    requires state { IsState m.now.desc (H.machinery hw.old).state }
    ensures until { IsUntil m.now.desc until most (H.machinery hw.old).state result }
    ensures fixed { H.fixed hw.new ≡ H.fixed hw.old }
{
    match until {
        Until::Still => count_until_still(m, hw, most),
        Until::Trap => hw.burst(m, most),
        Until::At(p) => count_until_at(m, hw, most, p),
    }
}

/// The same until P is there.
fn count_until_at<H: Hardware>(m: &Machine, hw: &mut H, most: u64, p: u32) -> u64
    requires served { IsServed (H.serves (H.fixed hw.old)) m.now.desc }
    requires state { IsState m.now.desc (H.machinery hw.old).state }
    ensures until { IsUntil m.now.desc (At p) most (H.machinery hw.old).state result }
    ensures fixed { H.fixed hw.new ≡ H.fixed hw.old }
{
    for done in 0..most {
        if hw.psw().p == p {
            return done;
        }
        hw.step(m);
    }
    most
}

/// The same until the state is still. Its steps are interpreted.
fn count_until_still<H: Hardware>(m: &Machine, hw: &mut H, most: u64) -> u64
    requires served { IsServed (H.serves (H.fixed hw.old)) m.now.desc }
    requires state { IsState m.now.desc (H.machinery hw.old).state }
    ensures until { IsUntil m.now.desc Still most (H.machinery hw.old).state result }
    ensures fixed { H.fixed hw.new ≡ H.fixed hw.old }
{
    let mut frame = Frame::new();
    for done in 0..most {
        let seen = step_seen(m, hw, &mut frame);
        if seen.still {
            return done;
        }
    }
    most
}
