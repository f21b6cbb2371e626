//! Laws of accepted descriptions: a program in user mode does the same wherever its window lies.
//!
//! Two states look alike where their windows are equal, and their P. The machine that a monitor runs a guest on and the one
//! that the guest believes to be its own are two such states: of different sizes, the window at another place under another
//! bound, and the guest's maybe in supervisor mode. Where each instruction is privileged or not sensitive, what is done in
//! user mode at one is done alike at the other: the same window and the same P after it, and mode and R as they were. What
//! leads from one state to the other are four pairs, of which each differs in one thing alone: the bound down to the length
//! of the window, the place, the bound up again, and the mode. Of a trap the laws say whether it comes, and not which it is:
//! no sensitive kind is shown by two states that both trap. This is the heart of Theorem 1 of the 1974 paper (section 5).
//!
//! The first three pairs are of user states. So where each instruction is privileged or only not user sensitive, which is what a
//! hybrid monitor asks for, the same holds from one user state to another (`done_alike_in_user_mode` and the three laws behind it).

ghost use Rattle.std.specs.Prelude.{◌≡◌, ◌⊎◌, ℕ, ◌<◌, ◌≤◌, ◌^◌, false, List, All, Contains};
ghost use Rattle.pg_word.specs.declared.psw.Psw.{Psw};
ghost use Rattle.pg_word.specs.declared.psw.Mode.TheVariants.{U};
ghost use Rattle.pg_word.specs.Psw.{IsPsw};
ghost use Rattle.pg_ast.specs.declared.tree.Instr.{Instr};
ghost use Rattle.pg_ast.specs.declared.tree.Desc.{Desc};
ghost use Rattle.pg_lang_meaning.specs.Bodies.{After};
ghost use Rattle.pg_lang_meaning.specs.States.{State, IsState, window};
ghost use Rattle.pg_lang_meaning.specs.Steps.{Done, ending, step, ends_in_trap};
ghost use Rattle.pg_type.specs.Kinds.{IsAt, IsDone, course_at};
ghost use Rattle.pg_type.specs.Accepting.{IsAccepted, IsHybridAccepted, IsInnocuous, IsPrivileged, IsUserInnocuous};
ghost use Rattle.pg_type.specs.Alike.{LookAlike, DoneAlike, Places, StepsAlike};
ghost use Rattle.pg_lang_valid.specs.Valid.{IsValid};

/// An instruction that is done at a user state is done alike at every state that looks alike: one that is privileged or not
/// sensitive, and so each of an accepted description.
pub fn done_alike()
    ensures one { (d : Desc) (i : Instr) (s t : State) → IsPrivileged d i ⊎ IsInnocuous d i → IsState d s → IsState d t → LookAlike s t → s.psw.mode ≡ U → IsAt i s → IsDone (course_at d i s) → DoneAlike d i s t }
    ensures each { (d : Desc) (i : Instr) (s t : State) → ∥ IsAccepted d ∥₁ → Contains d.instrs i → IsState d s → IsState d t → LookAlike s t → s.psw.mode ≡ U → IsAt i s → IsDone (course_at d i s) → DoneAlike d i s t }
{}

/// Of two user states that look alike, the steps from both trap or neither does.
pub fn traps_alike()
    ensures { (d : Desc) (s t : State) → ∥ IsAccepted d ∥₁ → IsState d s → IsState d t → LookAlike s t → s.psw.mode ≡ U → t.psw.mode ≡ U → ends_in_trap (ending d (window s) s.psw) ≡ ends_in_trap (ending d (window t) t.psw) }
{}

/// The same of one window of words, under two program status words in user mode that each open just it: wherever it lies.
pub fn traps_anywhere()
    ensures { (d : Desc) (cells : List ℕ) (x y : Psw) → ∥ IsAccepted d ∥₁ → 2 ≤ d.size → All (λ cell. cell < 2 ^ d.word) cells → IsPsw d.address x → IsPsw d.address y → Places d cells x → Places d cells y → x.p ≡ y.p → x.mode ≡ U → y.mode ≡ U → ends_in_trap (ending d cells x) ≡ ends_in_trap (ending d cells y) }
{}

/// A step that is done at a user state is done alike from every state that looks alike.
pub fn step_alike()
    ensures { (d : Desc) (s t : State) (after : After) → ∥ IsAccepted d ∥₁ → IsState d s → IsState d t → LookAlike s t → s.psw.mode ≡ U → ending d (window s) s.psw ≡ Done after → StepsAlike d s t after }
{}

/// A step from a user state that does not trap leaves mode and relocation-bounds register as they were: it moves P alone.
pub fn control_is_kept()
    ensures { (d : Desc) (s : State) → ∥ IsAccepted d ∥₁ → IsState d s → s.psw.mode ≡ U → ends_in_trap (ending d (window s) s.psw) ≡ false → (step d s).psw ≡ record s.psw { p = (step d s).psw.p } }
{}

/// States that look alike, the first in user mode, still do after a step that does not trap there.
pub fn still_alike()
    ensures { (d : Desc) (s t : State) → IsValid d → ∥ IsAccepted d ∥₁ → IsState d s → IsState d t → LookAlike s t → s.psw.mode ≡ U → ends_in_trap (ending d (window s) s.psw) ≡ false → LookAlike (step d s) (step d t) }
{}

/// An instruction that is done at a user state is done alike at every user state that looks alike: one that is privileged or
/// not user sensitive, and so each of a description that a hybrid monitor may run.
pub fn done_alike_in_user_mode()
    ensures one { (d : Desc) (i : Instr) (s t : State) → IsPrivileged d i ⊎ IsUserInnocuous d i → IsState d s → IsState d t → LookAlike s t → s.psw.mode ≡ U → t.psw.mode ≡ U → IsAt i s → IsDone (course_at d i s) → DoneAlike d i s t }
    ensures each { (d : Desc) (i : Instr) (s t : State) → ∥ IsHybridAccepted d ∥₁ → Contains d.instrs i → IsState d s → IsState d t → LookAlike s t → s.psw.mode ≡ U → t.psw.mode ≡ U → IsAt i s → IsDone (course_at d i s) → DoneAlike d i s t }
{}

/// There too, of two user states that look alike, the steps from both trap or neither does.
pub fn traps_alike_in_user_mode()
    ensures { (d : Desc) (s t : State) → ∥ IsHybridAccepted d ∥₁ → IsState d s → IsState d t → LookAlike s t → s.psw.mode ≡ U → t.psw.mode ≡ U → ends_in_trap (ending d (window s) s.psw) ≡ ends_in_trap (ending d (window t) t.psw) }
{}

/// And a step that is done at a user state is done alike from every user state that looks alike.
pub fn step_alike_in_user_mode()
    ensures { (d : Desc) (s t : State) (after : After) → ∥ IsHybridAccepted d ∥₁ → IsState d s → IsState d t → LookAlike s t → s.psw.mode ≡ U → t.psw.mode ≡ U → ending d (window s) s.psw ≡ Done after → StepsAlike d s t after }
{}

/// So a step from a user state that does not trap moves P alone there too.
pub fn control_is_kept_in_user_mode()
    ensures { (d : Desc) (s : State) → ∥ IsHybridAccepted d ∥₁ → IsState d s → s.psw.mode ≡ U → ends_in_trap (ending d (window s) s.psw) ≡ false → (step d s).psw ≡ record s.psw { p = (step d s).psw.p } }
{}
