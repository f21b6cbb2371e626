//! Where two windows of one length hold different words.
//!
//! Only where one of them holds a word that is not zero can they differ. So the cells that are listed of the first storage are
//! gone over, and then those of the second at whose address the first window holds zero.

ghost use Rattle.std.specs.Prelude.{◌≡◌, ◌≢◌, ◌⊎◌, ◌-◌, ◌≤◌, ◌<◌, ℕ, length, slice_get, slice_index, ◌↔◌, IsTrue, IfNone, IfSome, IfOk, OnOk, Some};
ghost use Rattle.std.specs.List.{All};
ghost use Rattle.pg_out_pair.specs.Telling.{IsDifference, IsSettled, AreDifferences};
ghost use Rattle.pg_out_pair.specs.Views.{seen_window};

use crate::seen::{Seen, word_at};
use std::alloc::{AllocError, Global};

/// An address of two windows, at which they hold different words.
#[derive(Clone, Copy, Debug, PartialEq, Eq)]
pub struct Difference {
    /// The address, relative to the begin of each window.
    pub at: u32,
    /// The word in the first window.
    pub first: u64,
    /// The word in the second.
    pub second: u64,
}

/// The difference at an address, if there is one.
fn differing_at(x: &Seen<'_>, y: &Seen<'_>, a: u32) -> Option<Difference>
    requires { length (seen_window x.now) ≡ length (seen_window y.now) }
    ensures some { IfSome result (IsDifference (seen_window x.now) (seen_window y.now)) }
    ensures at { IfSome result (λ d. d.at ≡ a) }
    ensures none { IfNone result (slice_get (seen_window x.now) a ≡ slice_get (seen_window y.now) a) }
{
    let Some(first) = word_at(x, a) else {
        return None;
    };
    let Some(second) = word_at(y, a) else {
        return None;
    };
    if first == second {
        return None;
    }
    Some(Difference {
        at: a,
        first,
        second,
    })
}

/// Pushes the difference at an address, if there is one.
fn push_at(list: &mut Vec<Difference>, x: &Seen<'_>, y: &Seen<'_>, a: u32) -> Result<(), AllocError>
    requires same_length { length (seen_window x.now) ≡ length (seen_window y.now) }
    requires each { All (IsDifference (seen_window x.now) (seen_window y.now)) list.old.items }
    ensures each { OnOk result (All (IsDifference (seen_window x.now) (seen_window y.now)) list.new.items) }
    ensures here { OnOk result (IsSettled (seen_window x.now) (seen_window y.now) list.new.items a) }
    ensures kept { OnOk result ((b : ℕ) → IsSettled (seen_window x.now) (seen_window y.now) list.old.items b →
        IsSettled (seen_window x.now) (seen_window y.now) list.new.items b) }
{
    match differing_at(x, y, a) {
        None => Ok(()),
        Some(found) => {
            list.push(found)?;
            Ok(())
        }
    }
}

/// Pushes the difference at the address of a cell of the first storage, where it lies in the window.
fn push_cell_first(
    list: &mut Vec<Difference>,
    x: &Seen<'_>,
    y: &Seen<'_>,
    at: u32,
) -> Result<(), AllocError>
    requires same_length { length (seen_window x.now) ≡ length (seen_window y.now) }
    requires each { All (IsDifference (seen_window x.now) (seen_window y.now)) list.old.items }
    ensures each { OnOk result (All (IsDifference (seen_window x.now) (seen_window y.now)) list.new.items) }
    ensures here { OnOk result (x.now.psw.l ≤ at → IsSettled (seen_window x.now) (seen_window y.now) list.new.items (at - x.now.psw.l)) }
    ensures kept { OnOk result ((b : ℕ) → IsSettled (seen_window x.now) (seen_window y.now) list.old.items b →
        IsSettled (seen_window x.now) (seen_window y.now) list.new.items b) }
{
    if at < x.psw.l {
        return Ok(());
    }
    push_at(list, x, y, at - x.psw.l)
}

/// Pushes the differences at the addresses of the cells that are listed of the first storage.
fn push_first(list: &mut Vec<Difference>, x: &Seen<'_>, y: &Seen<'_>) -> Result<(), AllocError>
    requires same_length { length (seen_window x.now) ≡ length (seen_window y.now) }
    requires each { All (IsDifference (seen_window x.now) (seen_window y.now)) list.old.items }
    ensures each { OnOk result (All (IsDifference (seen_window x.now) (seen_window y.now)) list.new.items) }
    ensures whole { OnOk result ((a : ℕ) → slice_index (seen_window x.now) a ≢ 0 → IsSettled (seen_window x.now) (seen_window y.now) list.new.items a) }
{
    for cell in x.state.cells.as_slice() {
        push_cell_first(list, x, y, cell.0)?;
    }
    Ok(())
}

/// Whether a window holds zero at an address.
fn is_zero(x: &Seen<'_>, a: u32) -> bool
    ensures { IsTrue result ↔ (slice_get (seen_window x.now) a ≡ Some 0) }
{
    word_at(x, a) == Some(0)
}

/// Pushes the difference at the address of a cell of the second storage, where it lies in the window and the first window holds zero there.
fn push_cell_second(
    list: &mut Vec<Difference>,
    x: &Seen<'_>,
    y: &Seen<'_>,
    at: u32,
) -> Result<(), AllocError>
    requires same_length { length (seen_window x.now) ≡ length (seen_window y.now) }
    requires each { All (IsDifference (seen_window x.now) (seen_window y.now)) list.old.items }
    ensures each { OnOk result (All (IsDifference (seen_window x.now) (seen_window y.now)) list.new.items) }
    ensures here { OnOk result (y.now.psw.l ≤ at → slice_get (seen_window x.now) (at - y.now.psw.l) ≡ Some 0 →
        IsSettled (seen_window x.now) (seen_window y.now) list.new.items (at - y.now.psw.l)) }
    ensures kept { OnOk result ((b : ℕ) → IsSettled (seen_window x.now) (seen_window y.now) list.old.items b →
        IsSettled (seen_window x.now) (seen_window y.now) list.new.items b) }
{
    if at < y.psw.l {
        return Ok(());
    }
    if !is_zero(x, at - y.psw.l) {
        return Ok(());
    }
    push_at(list, x, y, at - y.psw.l)
}

/// Pushes the differences at the addresses of the cells that are listed of the second storage, where the first window holds zero.
fn push_second(list: &mut Vec<Difference>, x: &Seen<'_>, y: &Seen<'_>) -> Result<(), AllocError>
    requires same_length { length (seen_window x.now) ≡ length (seen_window y.now) }
    requires each { All (IsDifference (seen_window x.now) (seen_window y.now)) list.old.items }
    ensures each { OnOk result (All (IsDifference (seen_window x.now) (seen_window y.now)) list.new.items) }
    ensures whole { OnOk result ((a : ℕ) → slice_index (seen_window y.now) a ≢ 0 → slice_get (seen_window x.now) a ≡ Some 0 →
        IsSettled (seen_window x.now) (seen_window y.now) list.new.items a) }
    ensures kept { OnOk result ((b : ℕ) → IsSettled (seen_window x.now) (seen_window y.now) list.old.items b →
        IsSettled (seen_window x.now) (seen_window y.now) list.new.items b) }
{
    for cell in y.state.cells.as_slice() {
        push_cell_second(list, x, y, cell.0)?;
    }
    Ok(())
}

/// Where two windows of one length hold different words: first, by addresses upwards, where the first window holds a word that is not zero,
/// and then where it holds zero.
pub(crate) fn differences(
    alloc: Global,
    x: &Seen<'_>,
    y: &Seen<'_>,
) -> Result<Vec<Difference>, AllocError>
    requires { length (seen_window x.now) ≡ length (seen_window y.now) }
    ensures { IfOk result (λ list. AreDifferences (seen_window x.now) (seen_window y.now) list.items) }
{
    let mut list = Vec::new(alloc);
    push_first(&mut list, x, y)?;
    push_second(&mut list, x, y)?;
    Ok(list)
}
