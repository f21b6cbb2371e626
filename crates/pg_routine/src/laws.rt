//! What follows from the definitions alone, for those who read them: none of it does anything when it runs.

ghost use Rattle.std.specs.Prelude.{◌≡◌, ℕ, ◌+◌, ◌<◌, ◌≤◌, ◌⊎◌, List, length, take, drop, slice_get};
ghost use Rattle.pg_word.specs.declared.psw.Psw.{Psw};
ghost use Rattle.pg_word.specs.Psw.{IsPsw};
ghost use Rattle.pg_ast.specs.declared.tree.Desc.{Desc};
ghost use Rattle.pg_lang_meaning.specs.States.{State, IsState, window};
ghost use Rattle.pg_lang_meaning.specs.Steps.{step};
ghost use Rattle.pg_lang_valid.specs.Valid.{IsValid};
ghost use Rattle.pg_routine.specs.Composing.{composed};
ghost use Rattle.pg_routine.specs.Granting.{guest_at, with_grant};

/// Under its composed program status word the hardware sees the window of the guest, cell for cell.
pub fn composed_window()
    ensures { (cells : List ℕ) (base size : ℕ) (psw : Psw) → base + size ≤ length cells → window (record { cells = cells; psw = composed psw base size }) ≡ window (guest_at cells base size psw) }
{}

/// With the composed program status word of a guest at a state the hardware is at a state too.
pub fn composed_fits()
    ensures { (d : Desc) (s : State) (base size : ℕ) (psw : Psw) → IsValid d → IsState d s → base + size ≤ length s.cells → IsState d (guest_at s.cells base size psw) → IsState d (record s { psw = composed psw base size }) }
{}

/// Other cells in a grant leave a storage its length, and all cells outside of the grant.
pub fn only_the_grant_changes()
    ensures length { (cells new : List ℕ) (base : ℕ) → base + length new ≤ length cells → length (with_grant cells base new) ≡ length cells }
    ensures before { (cells new : List ℕ) (base k : ℕ) → base + length new ≤ length cells → k < base → slice_get (with_grant cells base new) k ≡ slice_get cells k }
    ensures after { (cells new : List ℕ) (base k : ℕ) → base + length new ≤ length cells → base + length new ≤ k → slice_get (with_grant cells base new) k ≡ slice_get cells k }
{}

/// A guest has the cells that its grant was given.
pub fn grant_is_the_guests()
    ensures { (cells new : List ℕ) (base : ℕ) (psw : Psw) → base + length new ≤ length cells → guest_at (with_grant cells base new) base (length new) psw ≡ record { cells = new; psw = psw } }
{}

/// A grant that lies apart from another is not changed with it.
pub fn grants_apart_do_not_meet()
    ensures { (cells new : List ℕ) (base other size : ℕ) (psw : Psw) → base + length new ≤ length cells → (other + size ≤ base) ⊎ (base + length new ≤ other) → guest_at (with_grant cells base new) other size psw ≡ guest_at cells other size psw }
{}

/// A storage with a guest's own cells in its grant is as it was.
pub fn own_cells_change_nothing()
    ensures { (cells : List ℕ) (base size : ℕ) (psw : Psw) → base + size ≤ length cells → with_grant cells base (guest_at cells base size psw).cells ≡ cells }
{}

/// Of cells that are put into a grant one after the other, the last ones count.
pub fn last_cells_count()
    ensures { (cells new newer : List ℕ) (base : ℕ) → base + length new ≤ length cells → length newer ≡ length new → with_grant (with_grant cells base new) base newer ≡ with_grant cells base newer }
{}

/// A storage at a state is at a state with the cells of another state in a grant.
pub fn with_grant_is_a_state()
    ensures { (d : Desc) (s guest : State) (base : ℕ) → IsState d s → IsState d guest → base + length guest.cells ≤ length s.cells → IsState d (record s { cells = with_grant s.cells base guest.cells }) }
{}

/// A grant of at least two cells of a storage at a state is a guest at a state, under each program status word of the
/// machine.
pub fn guest_is_a_state()
    ensures { (d : Desc) (s : State) (base size : ℕ) (psw : Psw) → IsState d s → 2 ≤ size → base + size ≤ length s.cells → IsPsw d.address psw → IsState d (guest_at s.cells base size psw) }
{}

/// A guest one of whose steps was interpreted is at the state after that step, in a grant of the same size, and the
/// storage is at a state still.
pub fn interpreted_step_is_the_guests()
    ensures guest { (d : Desc) (cells : List ℕ) (base size : ℕ) (psw : Psw) → IsValid d → base + size ≤ length cells → IsState d (guest_at cells base size psw) → guest_at (with_grant cells base (step d (guest_at cells base size psw)).cells) base size (step d (guest_at cells base size psw)).psw ≡ step d (guest_at cells base size psw) }
    ensures storage { (d : Desc) (s : State) (base size : ℕ) (psw : Psw) → IsValid d → IsState d s → base + size ≤ length s.cells → IsState d (guest_at s.cells base size psw) → IsState d (record s { cells = with_grant s.cells base (step d (guest_at s.cells base size psw)).cells }) }
    ensures size { (d : Desc) (cells : List ℕ) (base size : ℕ) (psw : Psw) → IsValid d → base + size ≤ length cells → IsState d (guest_at cells base size psw) → length (with_grant cells base (step d (guest_at cells base size psw)).cells) ≡ length cells }
{}
