//! What arguments give: names of files, and numbers that passed their ranges.
//!
//! Contracts see a name as its bytes, names as the list of theirs, and a number as that number, so that what the words ask
//! for is plain data to them. The range of a number, and of how many names there are, is kept by its type: who is given one
//! need not ask for it.
ghost use Rattle.std.specs.Prelude.{◌≡◌, ◌≤◌, length, string_bytes};

use std::marker::Model;

/// The name of a file. It is owned, so that it outlives the words that it was read from.
#[derive(Drop)]
pub struct FileName {
    text: String,
}

impl Model for FileName {
    ghost use Rattle.std.specs.Prelude.{ℕ, List, string_bytes};

    ghost Value = { List ℕ };

    ghost view = { λ name. string_bytes name.text };
}

impl FileName {
    /// The name that a text is.
    pub fn new(text: String) -> FileName
        ensures { result ≡ string_bytes text }
    {
        FileName { text }
    }

    /// The text of the name.
    pub fn as_str(&self) -> &str
        ensures { result.now ≡ self.now }
    {
        self.text.as_str()
    }
}

/// The names of the files with the images of guests: 1 to 8, in the order in which they are named.
#[derive(Drop)]
pub struct Images {
    names: Vec<FileName>,
}

impl Model for Images {
    ghost use Rattle.std.specs.Prelude.{◌≤◌, ℕ, List, length};

    ghost Value = { List (List ℕ) };

    ghost view = { λ images. images.names.items };

    ghost invariant = { λ images. (1 ≤ length images.names.items) × (length images.names.items ≤ 8) };
}

impl Images {
    /// The most images that may be named.
    pub const MOST: usize = 8;

    /// The images of these names.
    pub fn new(names: Vec<FileName>) -> Images
        requires least { 1 ≤ length names.items }
        requires most { length names.items ≤ 8 }
        ensures { result ≡ names.items }
    {
        Images { names }
    }

    /// How many images there are.
    pub fn len(&self) -> usize
        ensures len { result ≡ length self.now }
        ensures least { 1 ≤ length self.now }
        ensures most { length self.now ≤ 8 }
    {
        self.names.len()
    }

    /// The names, in their order.
    pub fn as_slice(&self) -> &[FileName]
        ensures names { result.now ≡ self.now }
        ensures least { 1 ≤ length self.now }
        ensures most { length self.now ≤ 8 }
    {
        self.names.as_slice()
    }
}

/// How many cells are granted, to a machine or to a guest: 2 to 1,048,575.
#[derive(Drop)]
pub struct Grant {
    cells: u32,
}

impl Model for Grant {
    ghost use Rattle.std.specs.Prelude.{◌≤◌, ℕ};

    ghost Value = { ℕ };

    ghost view = { λ grant. grant.cells };

    ghost invariant = { λ grant. (2 ≤ grant.cells) × (grant.cells ≤ 1048575) };
}

impl Grant {
    /// The grant of so many cells.
    pub fn new(cells: u32) -> Grant
        requires least { 2 ≤ cells }
        requires most { cells ≤ 1048575 }
        ensures { result ≡ cells }
    {
        Grant { cells }
    }

    /// The number of cells.
    pub fn cells(&self) -> u32
        ensures cells { result ≡ self.now }
        ensures least { 2 ≤ self.now }
        ensures most { self.now ≤ 1048575 }
    {
        self.cells
    }
}

/// How many steps are done, exactly: 0 to 1,000,000.
#[derive(Drop)]
pub struct Steps {
    count: u64,
}

impl Model for Steps {
    ghost use Rattle.std.specs.Prelude.{◌≤◌, ℕ};

    ghost Value = { ℕ };

    ghost view = { λ steps. steps.count };

    ghost invariant = { λ steps. steps.count ≤ 1000000 };
}

impl Steps {
    /// So many steps.
    pub fn new(count: u64) -> Steps
        requires { count ≤ 1000000 }
        ensures { result ≡ count }
    {
        Steps { count }
    }

    /// The number of steps.
    pub fn count(&self) -> u64
        ensures count { result ≡ self.now }
        ensures most { self.now ≤ 1000000 }
    {
        self.count
    }
}

/// How many clauses a solver may learn for a question: 1 to 1,000,000.
#[derive(Drop)]
pub struct Budget {
    clauses: u32,
}

impl Model for Budget {
    ghost use Rattle.std.specs.Prelude.{◌≤◌, ℕ};

    ghost Value = { ℕ };

    ghost view = { λ budget. budget.clauses };

    ghost invariant = { λ budget. (1 ≤ budget.clauses) × (budget.clauses ≤ 1000000) };
}

impl Budget {
    /// The budget of so many clauses.
    pub fn new(clauses: u32) -> Budget
        requires least { 1 ≤ clauses }
        requires most { clauses ≤ 1000000 }
        ensures { result ≡ clauses }
    {
        Budget { clauses }
    }

    /// The number of clauses.
    pub fn clauses(&self) -> u32
        ensures clauses { result ≡ self.now }
        ensures least { 1 ≤ self.now }
        ensures most { self.now ≤ 1000000 }
    {
        self.clauses
    }
}

/// How many instructions a description that is made has: 1 to 60.
#[derive(Drop)]
pub struct Count {
    instrs: u32,
}

impl Model for Count {
    ghost use Rattle.std.specs.Prelude.{◌≤◌, ℕ};

    ghost Value = { ℕ };

    ghost view = { λ count. count.instrs };

    ghost invariant = { λ count. (1 ≤ count.instrs) × (count.instrs ≤ 60) };
}

impl Count {
    /// The count of so many instructions.
    pub fn new(instrs: u32) -> Count
        requires least { 1 ≤ instrs }
        requires most { instrs ≤ 60 }
        ensures { result ≡ instrs }
    {
        Count { instrs }
    }

    /// The number of instructions.
    pub fn instrs(&self) -> u32
        ensures instrs { result ≡ self.now }
        ensures least { 1 ≤ self.now }
        ensures most { self.now ≤ 60 }
    {
        self.instrs
    }
}

/// How many steps a guest does before the next guest has its turn: 1 to 1,000,000.
#[derive(Drop)]
pub struct Slice {
    steps: u64,
}

impl Model for Slice {
    ghost use Rattle.std.specs.Prelude.{◌≤◌, ℕ};

    ghost Value = { ℕ };

    ghost view = { λ slice. slice.steps };

    ghost invariant = { λ slice. (1 ≤ slice.steps) × (slice.steps ≤ 1000000) };
}

impl Slice {
    /// The slice of so many steps.
    pub fn new(steps: u64) -> Slice
        requires least { 1 ≤ steps }
        requires most { steps ≤ 1000000 }
        ensures { result ≡ steps }
    {
        Slice { steps }
    }

    /// The number of steps.
    pub fn steps(&self) -> u64
        ensures steps { result ≡ self.now }
        ensures least { 1 ≤ self.now }
        ensures most { self.now ≤ 1000000 }
    {
        self.steps
    }
}

/// How many cells are held before a guest's own: 0 to 1,048,575.
#[derive(Drop)]
pub struct Skip {
    cells: u32,
}

impl Model for Skip {
    ghost use Rattle.std.specs.Prelude.{◌≤◌, ℕ};

    ghost Value = { ℕ };

    ghost view = { λ skip. skip.cells };

    ghost invariant = { λ skip. skip.cells ≤ 1048575 };
}

impl Skip {
    /// So many cells.
    pub fn new(cells: u32) -> Skip
        requires { cells ≤ 1048575 }
        ensures { result ≡ cells }
    {
        Skip { cells }
    }

    /// The number of cells.
    pub fn cells(&self) -> u32
        ensures cells { result ≡ self.now }
        ensures most { self.now ≤ 1048575 }
    {
        self.cells
    }
}

/// How many monitors there are, each but the outermost on a guest of the one below it: 1 to 4.
#[derive(Drop)]
pub struct Depth {
    monitors: u32,
}

impl Model for Depth {
    ghost use Rattle.std.specs.Prelude.{◌≤◌, ℕ};

    ghost Value = { ℕ };

    ghost view = { λ depth. depth.monitors };

    ghost invariant = { λ depth. (1 ≤ depth.monitors) × (depth.monitors ≤ 4) };
}

impl Depth {
    /// The depth of so many monitors.
    pub fn new(monitors: u32) -> Depth
        requires least { 1 ≤ monitors }
        requires most { monitors ≤ 4 }
        ensures { result ≡ monitors }
    {
        Depth { monitors }
    }

    /// The number of monitors.
    pub fn monitors(&self) -> u32
        ensures monitors { result ≡ self.now }
        ensures least { 1 ≤ self.now }
        ensures most { self.now ≤ 4 }
    {
        self.monitors
    }
}
