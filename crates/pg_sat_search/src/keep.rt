//! Which of the clauses that were learned are kept.

use pg_watch::Watches;
use std::alloc::{AllocError, Global};

/// Clauses of so few levels are always kept.
const FEW: u32 = 2;

/// And these where they were a hint since the search last forgot.
const MIDDLE: u32 = 6;

/// How many of the others are kept, in hundredths.
const SHARE: usize = 50;

/// What a clause that was learned is worth.
#[derive(Clone, Copy)]
pub struct Worth {
    /// On how many levels its literals were when it was learned.
    pub glue: u32,
    /// At which conflict it was learned, or was last a hint.
    pub used: u64,
}

/// A clause that may be forgotten: the better ones are less.
#[derive(Clone, Copy, PartialEq, Eq, PartialOrd, Ord, Drop)]
struct Rank {
    glue: u32,
    len: usize,
    /// How long ago it was a hint, if ever.
    age: u64,
    place: usize,
}

/// Whether a clause is kept whatever others there are.
fn is_sure(worth: &Worth, len: usize, since: u64) -> bool {
    len <= 2 || worth.glue <= FEW || (worth.glue <= MIDDLE && worth.used >= since)
}

/// How many literals the clause at a place has, none where there is none.
fn len_at(watches: &Watches, place: usize) -> usize {
    match u32::try_from(place.saturating_add(1)) {
        Ok(number) if number as usize <= watches.len() => watches.clause(number).len(),
        _ => 0,
    }
}

/// For each learned clause, which stand behind so many others, whether it is kept.
pub fn kept_of(
    alloc: Global,
    watches: &Watches,
    first: usize,
    worths: &[Worth],
    since: u64,
) -> Result<Vec<bool>, AllocError> {
    let mut kept = vec![in alloc; true; worths.len()]?;
    let mut ranks = Vec::new(alloc);
    for (place, worth) in worths.iter().enumerate() {
        let len = len_at(watches, first.saturating_add(place));
        if !is_sure(worth, len, since) {
            ranks.push(Rank {
                glue: worth.glue,
                len,
                age: u64::MAX - worth.used,
                place,
            })?;
        }
    }
    ranks.as_mut_slice().sort_unstable();
    let share = ranks.len() / 100 * SHARE + ranks.len() % 100 * SHARE / 100;
    for rank in ranks.iter().skip(share) {
        if let Some(kept) = kept.get_mut(rank.place) {
            *kept = false;
        }
    }
    keep_reasons(watches, first, kept.as_mut_slice());
    Ok(kept)
}

/// Keeps each clause that is the reason of a literal.
fn keep_reasons(watches: &Watches, first: usize, kept: &mut [bool]) {
    for place in 0..watches.trail().len() {
        if let Some(number) = watches.reason(place) {
            if let Some(learned) = (number as usize).checked_sub(first.saturating_add(1)) {
                if let Some(kept) = kept.get_mut(learned) {
                    *kept = true;
                }
            }
        }
    }
}
