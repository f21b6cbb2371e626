//! What follows from the definitions alone, for those who read them: none of it does anything when it runs.

ghost use Rattle.std.specs.Prelude.{◌≡◌, ℕ, ◌+◌, ◌<◌, ◌≤◌, List, [], None, Some, IsSomeAnd};
ghost use Rattle.pg_alloc.specs.Fit.{kept_cells, free_base, IsFree};
ghost use Rattle.pg_alloc.specs.Grants.{AreGrants, IsCellOf};
ghost use Rattle.pg_alloc.specs.WorkedBases.{FirstGrant, WholeStorage, OneCellTooMany, SecondGrant, FullStorage, BeforeAnother, GapBetween, GapTooSmall};

/// A grant is placed at the least base at which its cells are free, where they are free at some.
pub fn first_fit()
    ensures free { (q size base : ℕ) (grants : List (ℕ × ℕ)) → free_base q grants size ≡ Some base → IsFree q grants size base }
    ensures least { (q size base : ℕ) (grants : List (ℕ × ℕ)) → IsFree q grants size base → IsSomeAnd (free_base q grants size) (λ found. found ≤ base) }
{}

/// The first grant lies behind the cells that are kept, where so many cells lie there.
pub fn first_grant()
    ensures placed { (q size : ℕ) → kept_cells + size ≤ q → free_base q [] size ≡ Some kept_cells }
    ensures refused { (q size : ℕ) → q < kept_cells + size → free_base q [] size ≡ None }
{}

/// Grants in a storage of 64 cells.
pub fn worked_bases()
    ensures first_grant { FirstGrant }
    ensures whole_storage { WholeStorage }
    ensures one_cell_too_many { OneCellTooMany }
    ensures second_grant { SecondGrant }
    ensures full_storage { FullStorage }
    ensures before_another { BeforeAnother }
    ensures gap_between { GapBetween }
    ensures gap_too_small { GapTooSmall }
{}

/// Grants that lie right lie behind the cells that are kept and within the storage, and no cell is in two of them.
pub fn grants_disjoint()
    ensures above { (q : ℕ) (grants : List (ℕ × ℕ)) (i cell : ℕ) → AreGrants q grants → IsCellOf grants i cell → kept_cells ≤ cell }
    ensures within { (q : ℕ) (grants : List (ℕ × ℕ)) (i cell : ℕ) → AreGrants q grants → IsCellOf grants i cell → cell < q }
    ensures alone { (q : ℕ) (grants : List (ℕ × ℕ)) (i j cell : ℕ) → AreGrants q grants → IsCellOf grants i cell → IsCellOf grants j cell → i ≡ j }
{}
