//! The numbers of two states, and how they are lowered.

ghost use Rattle.std.specs.Prelude.{◌≡◌, ◌≤◌, ◌-◌, ◌↔◌, IsTrue};
ghost use Rattle.pg_classify.specs.Lowering.{lowered, pulled, user};

use pg_word::{Mode, Psw, Sparse};

/// The fewest cells that a storage has.
const LEAST_SIZE: u32 = 2;

/// The numbers of a state: all of it but its words.
#[derive(Clone, Copy, Debug)]
pub struct Extent {
    /// How many cells the storage has.
    pub size: u32,
    /// The program status word.
    pub psw: Psw,
}

/// The numbers of two states.
#[derive(Clone, Copy, Debug)]
pub struct Extents {
    /// Those of the first state.
    pub first: Extent,
    /// Those of the second.
    pub second: Extent,
}

/// A number of a state that can be lowered.
#[derive(Clone, Copy, Debug, PartialEq, Eq)]
pub enum Number {
    /// P.
    P,
    /// The relocation, and with it the window.
    Relocation,
    /// The relocation and the size: the window is moved, and the storage ends as much behind it as before.
    Place,
    /// The bound.
    Bound,
    /// The size of the storage.
    Size,
    /// The length of the window: of bound and size the one that ends it.
    Length,
}

/// In which of two states a number is lowered.
#[derive(Clone, Copy, Debug, PartialEq, Eq)]
pub enum Whose {
    /// In both, by the same.
    Both,
    /// In the first alone.
    First,
    /// In the second alone.
    Second,
}

/// A number, and in which states it is lowered.
#[derive(Clone, Copy, Debug, PartialEq, Eq)]
pub struct Lever {
    /// Which number.
    pub number: Number,
    /// In which states.
    pub whose: Whose,
}

/// The numbers of a state.
fn extent_of(state: &Sparse) -> Extent
    ensures size { result.size ≡ state.now.size }
    ensures psw { result.psw ≡ state.now.psw }
{
    Extent {
        size: state.size,
        psw: state.psw,
    }
}

/// The numbers of two states.
pub fn extents_of(first: &Sparse, second: &Sparse) -> Extents
    ensures first { (result.first.size ≡ first.now.size) × (result.first.psw ≡ first.now.psw) }
    ensures second { (result.second.size ≡ second.now.size) × (result.second.psw ≡ second.now.psw) }
{
    Extents {
        first: extent_of(first),
        second: extent_of(second),
    }
}

impl Extent {
    /// Whether the bound ends the window, and not the storage.
    fn ends_at_bound(self) -> bool
        ensures { IsTrue result ↔ (self.psw.b ≤ self.size - self.psw.l) }
    {
        self.psw.b <= self.size.saturating_sub(self.psw.l)
    }

    /// The number.
    fn value(self, number: Number) -> u32 {
        match number {
            Number::P => self.psw.p,
            Number::Relocation | Number::Place => self.psw.l,
            Number::Bound => self.psw.b,
            Number::Size => self.size,
            Number::Length => self.psw.b.min(self.size),
        }
    }

    /// How far a number can be lowered, so that the storage keeps two cells.
    fn room(self, number: Number) -> u32 {
        let cells = self.size.saturating_sub(LEAST_SIZE);
        match number {
            Number::P => self.psw.p,
            Number::Relocation => self.psw.l,
            Number::Place => self.psw.l.min(cells),
            Number::Bound => self.psw.b,
            Number::Size => cells,
            Number::Length => self.psw.b.min(cells),
        }
    }

    /// The numbers with one of them lower by a step, or 0 where it is less than that.
    fn lowered(self, number: Number, step: u32) -> Extent
        ensures { result ≡ lowered number step self }
    {
        let Extent { size, psw } = self;
        let shorter = size.saturating_sub(step);
        let nearer = Psw {
            l: psw.l.saturating_sub(step),
            ..psw
        };
        let bounded = Psw {
            b: psw.b.saturating_sub(step),
            ..psw
        };
        match number {
            Number::P => Extent {
                size,
                psw: Psw {
                    p: psw.p.saturating_sub(step),
                    ..psw
                },
            },
            Number::Relocation => Extent { size, psw: nearer },
            Number::Place => Extent {
                size: shorter,
                psw: nearer,
            },
            Number::Bound => Extent { size, psw: bounded },
            Number::Size => Extent { size: shorter, psw },
            Number::Length => {
                if self.ends_at_bound() {
                    Extent { size, psw: bounded }
                } else {
                    Extent { size: shorter, psw }
                }
            }
        }
    }

    /// The numbers in user mode.
    fn in_user(self) -> Extent
        ensures { result ≡ user self }
    {
        Extent {
            size: self.size,
            psw: Psw {
                mode: Mode::U,
                ..self.psw
            },
        }
    }
}

impl Extents {
    /// How far a number can be lowered where a lever lowers it.
    pub fn room(self, lever: Lever) -> u32 {
        match lever.whose {
            Whose::Both => self
                .first
                .room(lever.number)
                .min(self.second.room(lever.number)),
            Whose::First => self.first.room(lever.number),
            Whose::Second => self.second.room(lever.number),
        }
    }

    /// The step that halves a number where a lever lowers it: the lesser of two numbers where there are two.
    pub fn half(self, lever: Lever) -> u32 {
        let value = match lever.whose {
            Whose::Both => self
                .first
                .value(lever.number)
                .min(self.second.value(lever.number)),
            Whose::First => self.first.value(lever.number),
            Whose::Second => self.second.value(lever.number),
        };
        value - value / 2
    }

    /// The numbers with one of them lower by a step, in the states of a lever.
    pub fn lowered(self, lever: Lever, step: u32) -> Extents
        ensures { result ≡ pulled lever step self }
    {
        let first = self.first.lowered(lever.number, step);
        let second = self.second.lowered(lever.number, step);
        match lever.whose {
            Whose::Both => Extents { first, second },
            Whose::First => Extents { first, ..self },
            Whose::Second => Extents { second, ..self },
        }
    }

    /// The numbers of both in user mode.
    pub fn in_user(self) -> Extents
        ensures { result ≡ record { first = user self.first; second = user self.second } }
    {
        Extents {
            first: self.first.in_user(),
            second: self.second.in_user(),
        }
    }
}
