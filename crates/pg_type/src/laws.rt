//! What follows from the definitions of kinds alone, for those who read them: none of it does anything when it runs.

ghost use Rattle.std.specs.Prelude.{◌≡◌, ◌↔◌, ◌≤◌, ℕ, List};
ghost use Rattle.pg_word.specs.declared.psw.Psw.{Psw};
ghost use Rattle.pg_lang_meaning.specs.States.{State, IsState};
ghost use Rattle.pg_lang_meaning.specs.Steps.{ending, step, steps};
ghost use Rattle.pg_type.specs.Accepting.{IsPrivileged, IsNeverBroken, IsAccepted, IsHybridAccepted};
ghost use Rattle.pg_type.specs.Agreeing.{Agree};
ghost use Rattle.pg_type.specs.PaperWords.{HoldPaperWords};

use pg_ast::{Desc, Instr};

/// An instruction is privileged exactly where no pair of states shows that it is not.
pub fn privileged_where_never_broken(desc: &Desc, instr: &Instr)
    ensures { IsPrivileged desc.now instr.now ↔ IsNeverBroken desc.now instr.now }
{}

/// What the monitor of Theorem 1 may run, that of Theorem 3 may run too. The other way round it is not so
/// (`rows::hybrid_alone`).
pub fn accepted_means_hybrid_accepted(desc: &Desc)
    requires { IsAccepted desc.now }
    ensures { IsHybridAccepted desc.now }
{}

/// The paper's own words hold of what is accepted: each instruction is paper-privileged, or not paper-sensitive on states
/// that do not trap.
pub fn accepted_means_paper_words(desc: &Desc)
    requires { IsAccepted desc.now }
    ensures { HoldPaperWords desc.now }
{}

/// Machines that agree step alike, from every state and however often: a step does not depend on the greatest size. Each step
/// ends alike, so that one traps exactly where the other does.
pub fn agreeing_machines_step_alike(desc: &Desc, other: &Desc)
    requires { Agree desc.now other.now }
    ensures ending_alike { (cells : List ℕ) (psw : Psw) → ending other.now cells psw ≡ ending desc.now cells psw }
    ensures step_alike { (s : State) → step other.now s ≡ step desc.now s }
    ensures steps_alike { (n : ℕ) (s : State) → steps other.now n s ≡ steps desc.now n s }
{}

/// Of two machines that agree, the states of the narrower one are states of the other. The other way round it is not so
/// (`rows::worked_agreement`).
pub fn narrower_machines_have_fewer_states(desc: &Desc, narrow: &Desc)
    requires agrees { Agree desc.now narrow.now }
    requires narrower { narrow.now.size ≤ desc.now.size }
    ensures { (s : State) → IsState narrow.now s → IsState desc.now s }
{}

/// Of two machines that agree, what a monitor may run on one it may run on a narrower one: of Theorem 1, and of Theorem 3.
pub fn narrower_machines_are_accepted(desc: &Desc, narrow: &Desc)
    requires agrees { Agree desc.now narrow.now }
    requires narrower { narrow.now.size ≤ desc.now.size }
    ensures accepted { IsAccepted desc.now → IsAccepted narrow.now }
    ensures hybrid { IsHybridAccepted desc.now → IsHybridAccepted narrow.now }
{}
