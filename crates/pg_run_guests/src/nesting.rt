//! The run of a guest under one to four monitors.
//!
//! There is one function for each depth, for any hardware: it takes the hardware and hands it back. The one of a greater depth makes a
//! narrower machine, and lends its hardware as a level to the one of a depth less. So each depth is proved from the contract of the
//! one before it, and the first from that of a monitor. All machines are made before anything is installed.

ghost use Rattle.std.specs.Prelude.{◌≡◌, ◌+◌, ◌-◌, ◌≤◌, OnOk, OnErr, IfOk};
ghost use Rattle.pg_lang_valid.specs.Sized.{sized};
ghost use Rattle.pg_alloc.specs.Fit.{kept_cells};
ghost use Rattle.pg_hw.specs.Serving.{IsServed};
ghost use Rattle.pg_mon_control.specs.Counting.{CanCount};
ghost use Rattle.pg_run_guests.specs.Nesting.{CanNest, IsInnermost, Nested, RanNested, NotStepped};

use crate::run_guests;
use pg_hw::Hardware;
use pg_image::Image;
use pg_mach_ready::Machine;
use pg_mon_control::KEPT_CELLS;
use pg_nest::{Lent, Level};
use pg_type::Accepted;
use pg_word::Psw;
use std::alloc::{AllocError, Global};
use std::slice::from_ref;

/// All turns of a guest that is alone are one slice.
const ONE_SLICE: u64 = u64::MAX;

/// What is told of the innermost guest, beside its storage.
#[derive(Clone, Copy, Debug, PartialEq, Eq)]
pub struct Innermost {
    /// Its own program status word.
    pub psw: Psw,
    /// How many of its steps the hardware executed untrapped.
    pub direct: u64,
}

/// The image as the guest of a monitor on the hardware.
fn run_one<H: Hardware>(
    alloc: Global,
    accepted: Accepted<'_>,
    image: &Image,
    steps: u64,
    hw: &mut H,
) -> Result<Innermost, AllocError>
    requires served { IsServed (H.serves (H.fixed hw.old)) accepted.machine.now.desc }
    requires room { accepted.machine.now.desc.size ≤ H.room (H.fixed hw.old) }
    requires counts { CanCount (H.machinery hw.old).tally }
    requires can_nest { CanNest 1 accepted.machine.now.desc image.now steps }
    ensures innermost { IfOk result (λ x. IsInnermost accepted.entry.machine.now.desc image.now steps x) }
    ensures nested { OnOk result (Nested 1 accepted.entry.machine.now.desc image.now steps (H.machinery hw.old) (H.machinery hw.new)) }
    ensures refused { OnErr result ((H.machinery hw.new).bottom ≡ (H.machinery hw.old).bottom) }
    ensures fixed { H.fixed hw.new ≡ H.fixed hw.old }
{
    let images = from_ref(image);
    match run_guests(alloc, accepted, images, ONE_SLICE, steps, hw) {
        Ok(ran) => Ok(Innermost {
            psw: ran.guests()[0].psw,
            direct: ran.direct(),
        }),
        Err(refused) => Err(refused),
    }
}

/// One monitor on a hardware.
fn in_one<K: Hardware>(
    alloc: Global,
    accepted: Accepted<'_>,
    image: &Image,
    steps: u64,
    mut hw: K,
    out: &mut Result<Innermost, AllocError>,
) -> K
    requires served { IsServed (K.serves (K.fixed hw)) accepted.machine.now.desc }
    requires room { accepted.machine.now.desc.size ≤ K.room (K.fixed hw) }
    requires counts { CanCount (K.machinery hw).tally }
    requires can_nest { CanNest 1 accepted.machine.now.desc image.now steps }
    ensures innermost { IfOk out.new (λ x. IsInnermost accepted.entry.machine.now.desc image.now steps x) }
    ensures nested { OnOk out.new (Nested 1 accepted.entry.machine.now.desc image.now steps (K.machinery hw) (K.machinery result)) }
    ensures refused { OnErr out.new ((K.machinery result).bottom ≡ (K.machinery hw).bottom) }
    ensures fixed { K.fixed result ≡ K.fixed hw }
{
    *out = run_one(alloc, accepted, image, steps, &mut hw);
    hw
}

/// The machine that the guest of a monitor of this one has: the same, but for the cells that the monitor keeps.
fn narrowed(alloc: Global, accepted: Accepted<'_>) -> Result<Machine, AllocError>
    requires { 4 + kept_cells ≤ accepted.machine.now.desc.size }
    ensures { IfOk result (λ machine. machine.desc ≡ sized (accepted.entry.machine.now.desc.size - kept_cells)
        accepted.entry.machine.now.desc) }
{
    let machine = accepted.machine();
    machine.narrow(alloc, machine.shape().q - KEPT_CELLS)
}

/// Two monitors: one on a level of a hardware.
fn in_two<K: Hardware>(
    alloc: Global,
    accepted: Accepted<'_>,
    image: &Image,
    steps: u64,
    hw: K,
    out: &mut Result<Innermost, AllocError>,
) -> K
    requires served { IsServed (K.serves (K.fixed hw)) accepted.machine.now.desc }
    requires room { accepted.machine.now.desc.size ≤ K.room (K.fixed hw) }
    requires can_nest { CanNest 2 accepted.machine.now.desc image.now steps }
    ensures innermost { IfOk out.new (λ x. IsInnermost accepted.entry.machine.now.desc image.now steps x) }
    ensures nested { OnOk out.new (Nested 2 accepted.entry.machine.now.desc image.now steps (K.machinery hw) (K.machinery result)) }
    ensures refused { OnErr out.new ((K.machinery result).bottom ≡ (K.machinery hw).bottom) }
    ensures fixed { K.fixed result ≡ K.fixed hw }
{
    let machine = match narrowed(alloc, accepted) {
        Ok(machine) => machine,
        Err(refused) => {
            *out = Err(refused);
            return hw;
        }
    };
    let inner = accepted.narrow(&machine);
    let level = Level::new(alloc, accepted, hw);
    let level = in_one(alloc, inner, image, steps, level, out);
    level.into_inner()
}

/// Three monitors: two on a level of a hardware.
fn in_three<K: Hardware>(
    alloc: Global,
    accepted: Accepted<'_>,
    image: &Image,
    steps: u64,
    hw: K,
    out: &mut Result<Innermost, AllocError>,
) -> K
    requires served { IsServed (K.serves (K.fixed hw)) accepted.machine.now.desc }
    requires room { accepted.machine.now.desc.size ≤ K.room (K.fixed hw) }
    requires can_nest { CanNest 3 accepted.machine.now.desc image.now steps }
    ensures innermost { IfOk out.new (λ x. IsInnermost accepted.entry.machine.now.desc image.now steps x) }
    ensures nested { OnOk out.new (Nested 3 accepted.entry.machine.now.desc image.now steps (K.machinery hw) (K.machinery result)) }
    ensures refused { OnErr out.new ((K.machinery result).bottom ≡ (K.machinery hw).bottom) }
    ensures fixed { K.fixed result ≡ K.fixed hw }
{
    let machine = match narrowed(alloc, accepted) {
        Ok(machine) => machine,
        Err(refused) => {
            *out = Err(refused);
            return hw;
        }
    };
    let inner = accepted.narrow(&machine);
    let level = Level::new(alloc, accepted, hw);
    let level = in_two(alloc, inner, image, steps, level, out);
    level.into_inner()
}

/// Four monitors: three on a level of a hardware.
fn in_four<K: Hardware>(
    alloc: Global,
    accepted: Accepted<'_>,
    image: &Image,
    steps: u64,
    hw: K,
    out: &mut Result<Innermost, AllocError>,
) -> K
    requires served { IsServed (K.serves (K.fixed hw)) accepted.machine.now.desc }
    requires room { accepted.machine.now.desc.size ≤ K.room (K.fixed hw) }
    requires can_nest { CanNest 4 accepted.machine.now.desc image.now steps }
    ensures innermost { IfOk out.new (λ x. IsInnermost accepted.entry.machine.now.desc image.now steps x) }
    ensures nested { OnOk out.new (Nested 4 accepted.entry.machine.now.desc image.now steps (K.machinery hw) (K.machinery result)) }
    ensures refused { OnErr out.new ((K.machinery result).bottom ≡ (K.machinery hw).bottom) }
    ensures fixed { K.fixed result ≡ K.fixed hw }
{
    let machine = match narrowed(alloc, accepted) {
        Ok(machine) => machine,
        Err(refused) => {
            *out = Err(refused);
            return hw;
        }
    };
    let inner = accepted.narrow(&machine);
    let level = Level::new(alloc, accepted, hw);
    let level = in_three(alloc, inner, image, steps, level, out);
    level.into_inner()
}

/// So many monitors, 1 to 4, the outermost on a hardware.
fn in_depth<K: Hardware>(
    alloc: Global,
    accepted: Accepted<'_>,
    image: &Image,
    depth: u32,
    steps: u64,
    hw: K,
    out: &mut Result<Innermost, AllocError>,
) -> K
    requires least { 1 ≤ depth }
    requires most { depth ≤ 4 }
    requires served { IsServed (K.serves (K.fixed hw)) accepted.machine.now.desc }
    requires room { accepted.machine.now.desc.size ≤ K.room (K.fixed hw) }
    requires counts { CanCount (K.machinery hw).tally }
    requires can_nest { CanNest depth accepted.machine.now.desc image.now steps }
    ensures innermost { IfOk out.new (λ x. IsInnermost accepted.entry.machine.now.desc image.now steps x) }
    ensures nested { OnOk out.new (Nested depth accepted.entry.machine.now.desc image.now steps (K.machinery hw) (K.machinery result)) }
    ensures refused { OnErr out.new ((K.machinery result).bottom ≡ (K.machinery hw).bottom) }
    ensures fixed { K.fixed result ≡ K.fixed hw }
{
    match depth {
        1 => in_one(alloc, accepted, image, steps, hw, out),
        2 => in_two(alloc, accepted, image, steps, hw, out),
        3 => in_three(alloc, accepted, image, steps, hw, out),
        _ => in_four(alloc, accepted, image, steps, hw, out),
    }
}

/// Runs an image under `depth` monitors, 1 to 4, for so many steps, on a hardware that is handed in: the outermost monitor runs on it,
/// each other on the guest of the one below it, and the image is the guest of the innermost, of as many cells as it has words.
///
/// # Errors
/// Only for lack of memory, and then no step was done: the hardware's counts of steps are as they were. Its state may have been
/// set up, for some of the monitors.
pub fn nest<H: Hardware>(
    alloc: Global,
    accepted: Accepted<'_>,
    image: &Image,
    depth: u32,
    steps: u64,
    hw: &mut H,
) -> Result<Innermost, AllocError>
    requires least { 1 ≤ depth }
    requires most { depth ≤ 4 }
    requires served { IsServed (H.serves (H.fixed hw.old)) accepted.machine.now.desc }
    requires room { accepted.machine.now.desc.size ≤ H.room (H.fixed hw.old) }
    requires counts { CanCount (H.machinery hw.old).tally }
    requires can_nest { CanNest depth accepted.machine.now.desc image.now steps }
    ensures innermost { IfOk result (λ x. IsInnermost accepted.entry.machine.now.desc image.now steps x) }
    ensures nested { OnOk result (RanNested depth accepted.entry.machine.now.desc image.now steps (H.machinery hw.old)
        (H.machinery hw.new)) }
    ensures refused { OnErr result (NotStepped (H.machinery hw.old) (H.machinery hw.new)) }
    ensures fixed { H.fixed hw.new ≡ H.fixed hw.old }
{
    let mut out = Err(AllocError);
    let lent = Lent::new(hw);
    let _lent = in_depth(alloc, accepted, image, depth, steps, lent, &mut out);
    out
}
