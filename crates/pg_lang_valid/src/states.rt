//! Laws of states: the machine of a valid description never leaves them.
//!
//! Whatever runs a machine needs them: a step asks that the state is one, and leaves one for the next.

ghost use Rattle.std.specs.Prelude.{ℕ, ◌<◌, ◌≤◌, ◌^◌, List, length, All};
ghost use Rattle.pg_ast.specs.declared.tree.Desc.{Desc};
ghost use Rattle.pg_lang_meaning.specs.States.{State, IsState};
ghost use Rattle.pg_lang_meaning.specs.Steps.{steps, power_on};
ghost use Rattle.pg_lang_valid.specs.Valid.{IsValid};

/// Steps lead from states to states: whatever a program does, each cell stays a word and each field of the program status
/// word an address.
pub fn steps_keep_states()
    ensures { (d : Desc) (n : ℕ) (s : State) → IsValid d → IsState d s → IsState d (steps d n s) }
{}

/// A machine of 2 to q cells that is switched on with words is at a state.
pub fn power_on_is_a_state()
    ensures { (d : Desc) (image : List ℕ) (g : ℕ) → IsValid d → 2 ≤ g → g ≤ d.size → length image ≤ g → All (λ word. word < 2 ^ d.word) image → IsState d (power_on image g) }
{}
