//! Laws of what is due, and of what is left: how much the clauses of `tool` leave open.

ghost use Rattle.std.specs.Prelude.{◌≡◌, ◌≢◌, ℕ, List, None, Some};
ghost use Rattle.pg_cli_parse.specs.Asked.{request_of};
ghost use Rattle.pg_edge.specs.Shelf.{Files};
ghost use Rattle.pg_hw.specs.Machinery.{Machinery};
ghost use Rattle.pg_cmd_plain.specs.Bare.{BareRun, RanBare};
ghost use Rattle.pg_cmd_base.specs.Commands.{Carries};
ghost use Rattle.pg_cmd_base.specs.World.{World};
ghost use Rattle.pg_cmd_base.specs.declared.status.Status.TheVariants.{ReadFault};
ghost use Rattle.pg_run_guests.specs.UnderMonitor.{RanGuests};
ghost use Rattle.pg_run_guests.specs.Runs.{GuestRun};
ghost use Rattle.pg_tool.specs.Asking.{command_for};
ghost use Rattle.pg_cmd_base.specs.Steps.{IsOne};

/// For words and told files one thing is due at most, beside a read that may fail: one refusal, or one piece of work.
#[tactic(auto, using(crate::proofs::OnlyOne::due_is_one))]
pub fn one_thing_is_due()
    ensures { (files : Files) (words : List (List ℕ)) → IsOne ((command_for words).due (Some files)) }
{}

/// A read fault is told of no words that were refused: a file is read only once the words are taken.
pub fn a_read_fault_comes_behind_the_words()
    ensures { (words : List (List ℕ)) (old new : World) → Carries (command_for words) old new ReadFault → request_of words ≢ None }
{}

/// What a run of a bare machine leaves on a hardware is one state, and one count of steps, and so is what a run of guests
/// leaves: cell 0, cell 1, every cell outside the grants and the program status word are as fixed as the guests' own cells.
#[tactic(auto, using(crate::proofs::OneState::one_state))]
pub fn a_run_leaves_one_state()
    ensures bare { (r : BareRun) (old one other : Machinery) → RanBare r old one → RanBare r old other → one.state ≡ other.state }
    ensures bare_steps { (r : BareRun) (old one other : Machinery) → RanBare r old one → RanBare r old other → one.tally.steps
        ≡ other.tally.steps }
    ensures guests { (r : GuestRun) (old one other : Machinery) → RanGuests r old one → RanGuests r old other → one.state ≡ other.state }
    ensures guests_steps { (r : GuestRun) (old one other : Machinery) → RanGuests r old one → RanGuests r old other
        → one.tally.steps ≡ other.tally.steps }
{}
