//! Laws of counts and bursts, for those who read the definitions or cite them: none of it does anything when it runs.

ghost use Rattle.std.specs.Prelude.{◌≡◌, ℕ, suc, ◌+◌, ◌-◌, ◌^◌, ◌<◌, ◌≤◌, true, false};
ghost use Rattle.pg_ast.specs.declared.tree.Desc.{Desc};
ghost use Rattle.pg_lang_meaning.specs.States.{State};
ghost use Rattle.pg_lang_meaning.specs.Steps.{steps};
ghost use Rattle.pg_hw.specs.Tallies.{raised_by};
ghost use Rattle.pg_hw.specs.Bursts.{traps, burst_length, untrapped_among};

/// A count never falls, stops at `2^64 - 1`, rises by just so many where there is room, and rises add up.
pub fn counts_only_rise()
    ensures never_fall { (n c : ℕ) → c ≤ raised_by n c }
    ensures stop { (n c : ℕ) → c ≤ 2 ^ 64 - 1 → raised_by n c ≤ 2 ^ 64 - 1 }
    ensures exact { (n c : ℕ) → c + n ≤ 2 ^ 64 - 1 → raised_by n c ≡ c + n }
    ensures add_up { (m n c : ℕ) → raised_by n (raised_by m c) ≡ raised_by (m + n) c }
{}

/// A burst does as many steps as it was asked for at most, and one at least where it was asked for some; none of them but
/// the last traps; and where it did fewer than it was asked for, the last one traps.
pub fn bursts_end_with_a_trap_or_whole()
    ensures most { (d : Desc) (k : ℕ) (s : State) → burst_length d k s ≤ k }
    ensures some { (d : Desc) (k : ℕ) (s : State) → 0 < k → 1 ≤ burst_length d k s }
    ensures goes_on { (d : Desc) (k j : ℕ) (s : State) → j + 1 < burst_length d k s → traps d (steps d j s) ≡ false }
    ensures ends { (d : Desc) (k n : ℕ) (s : State) → burst_length d k s ≡ suc n → suc n < k → traps d (steps d n s) ≡ true }
{}

/// What is counted of steps adds up over runs of them.
pub fn untrapped_steps_add_up()
    ensures { (d : Desc) (m n : ℕ) (s : State) → untrapped_among d (m + n) s ≡ untrapped_among d m s + untrapped_among d n (steps d m s) }
{}
