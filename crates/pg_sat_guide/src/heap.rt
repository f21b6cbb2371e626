//! Variables by how much they took part in conflicts of late: a heap, whose first entry took part most.
//!
//! Each conflict adds a step to the activity of the variables that it is traced over, and the step grows, so that what was
//! long ago counts for less (Chaff, Moskewicz and others, 2001; MiniSat, Een and Sorensson, 2003). Activities are whole
//! numbers: where the step has grown too far all are made smaller. A solver is right whatever this order is, so nothing is
//! said of it in contracts.

ghost use Rattle.std.specs.Prelude.{◌<◌, ◌^◌};

use std::alloc::{AllocError, Global};

/// The step that the first conflict adds.
const FIRST_STEP: u64 = 1 << 20;

/// The step from which on all activities are made smaller, by 2^`FALL`.
const LAST_STEP: u64 = 1 << 50;

/// By how many bits all activities are made smaller.
const FALL: u32 = 30;

/// Where a variable stands that is not in the heap.
const NOWHERE: u32 = u32::MAX;

/// A heap has no more levels.
const LEVELS: u32 = 32;

/// Variables, each at most once, the most active one first.
#[derive(Drop)]
pub struct Heap {
    /// By variable.
    activities: Vec<u64>,
    /// The variables that are in the heap.
    entries: Vec<u32>,
    /// By variable, where it stands among the entries.
    places: Vec<u32>,
    step: u64,
}

impl Heap {
    /// All of so many variables, each as active as any.
    pub fn new(alloc: Global, variables: u32) -> Result<Heap, AllocError>
        requires { variables < 2 ^ 31 }
    {
        let count = variables as usize + 1;
        let mut heap = Heap {
            activities: vec![in alloc; 0u64; count]?,
            entries: Vec::new(alloc),
            places: vec![in alloc; NOWHERE; count]?,
            step: FIRST_STEP,
        };
        for index in 0..variables {
            heap.push(index + 1)?;
        }
        Ok(heap)
    }

    /// How many variables are in the heap.
    pub fn len(&self) -> usize {
        self.entries.len()
    }

    /// Adds a variable, where it is not in the heap.
    pub fn push(&mut self, variable: u32) -> Result<(), AllocError> {
        if self.place(variable).is_some() {
            return Ok(());
        }
        let at = self.entries.len();
        self.entries.push(variable)?;
        self.put(at, variable);
        self.rise(at);
        Ok(())
    }

    /// Takes out the most active variable.
    pub fn pop(&mut self) -> Option<u32> {
        let last = self.entries.pop()?;
        let first = match self.entries.first() {
            None => last,
            Some(&first) => first,
        };
        if !self.entries.is_empty() {
            self.put(0, last);
            self.sink();
        }
        self.forget(first);
        Some(first)
    }

    /// Makes a variable more active, by a step.
    pub fn raise(&mut self, variable: u32) {
        if let Some(activity) = self.activities.get_mut(variable as usize) {
            *activity = activity.saturating_add(self.step);
        }
        if let Some(at) = self.place(variable) {
            self.rise(at);
        }
    }

    /// Lets the step grow, so that what was so far counts for less.
    pub fn age(&mut self) {
        self.step = self.step.saturating_add(self.step / 16);
        if self.step > LAST_STEP {
            self.step >>= FALL;
            for activity in self.activities.as_mut_slice() {
                *activity >>= FALL;
            }
        }
    }

    /// Where a variable stands, if it is in the heap.
    fn place(&self, variable: u32) -> Option<usize> {
        match self.places.get(variable as usize) {
            Some(&place) if place != NOWHERE => Some(place as usize),
            _ => None,
        }
    }

    /// Puts a variable at a place.
    fn put(&mut self, at: usize, variable: u32) {
        if let Some(entry) = self.entries.get_mut(at) {
            *entry = variable;
        }
        if let Some(place) = self.places.get_mut(variable as usize) {
            *place = u32::try_from(at).unwrap_or(NOWHERE);
        }
    }

    /// Says that a variable is not in the heap.
    fn forget(&mut self, variable: u32) {
        if let Some(place) = self.places.get_mut(variable as usize) {
            *place = NOWHERE;
        }
    }

    /// The activity of the variable at a place, 0 where there is none.
    fn activity(&self, at: usize) -> u64 {
        match self.entries.get(at) {
            None => 0,
            Some(&variable) => match self.activities.get(variable as usize) {
                None => 0,
                Some(&activity) => activity,
            },
        }
    }

    /// Exchanges the variables at two places.
    fn exchange(&mut self, at: usize, other: usize) {
        let pair = (
            self.entries.get(at).copied(),
            self.entries.get(other).copied(),
        );
        if let (Some(first), Some(second)) = pair {
            self.put(at, second);
            self.put(other, first);
        }
    }

    /// Lets the variable at a place go up to where it belongs.
    fn rise(&mut self, from: usize) {
        let mut at = from;
        while at > 0 {
            let parent = (at - 1) / 2;
            if self.activity(at) <= self.activity(parent) {
                return;
            }
            self.exchange(at, parent);
            at = parent;
        }
    }

    /// Lets the first variable go down to where it belongs.
    fn sink(&mut self) {
        let mut at = 0;
        for _ in 0..LEVELS {
            match self.greater_child(at) {
                None => return,
                Some(child) => {
                    self.exchange(at, child);
                    at = child;
                }
            }
        }
    }

    /// The place below another whose variable is the more active one, where it is more active than the one above.
    fn greater_child(&self, at: usize) -> Option<usize> {
        if at >= self.entries.len() / 2 {
            return None;
        }
        let left = 2 * at + 1;
        let right = left + 1;
        let child = if self.activity(right) > self.activity(left) {
            right
        } else {
            left
        };
        if self.activity(child) > self.activity(at) {
            Some(child)
        } else {
            None
        }
    }
}
