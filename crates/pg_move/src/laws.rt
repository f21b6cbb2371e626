//! What follows from the definitions alone: none of it does anything when it runs.

ghost use Rattle.pg_move.specs.Laws.{SavedTextsHaveRoom, SavedTextsReadBack, ReadTextsAreSpelled, CapturedStatesAreStates, SavedStatesAreStates, AdoptedGuestsGoOn};
ghost use Rattle.pg_move.specs.WorkedTexts.{TextOfThreeSteps, AnotherVersion, NothingAtAll, ForeignByte};

/// The text of what is saved is within the room for the size of its state.
pub fn saved_texts_have_room()
    ensures { SavedTextsHaveRoom }
{}

/// The text of what is saved says just that: the same number of steps, and the same state.
pub fn saved_texts_read_back()
    ensures { SavedTextsReadBack }
{}

/// Bytes that are not refused are the one text of what they say, which is in range.
pub fn read_texts_are_spelled()
    ensures { ReadTextsAreSpelled }
{}

/// The state of a guest is one of each machine that agrees with its own and is large enough for it.
pub fn captured_states_are_states_of_machines_that_agree()
    ensures { CapturedStatesAreStates }
{}

/// What was read for a machine's shape has a state of the machine.
pub fn saved_states_are_states()
    ensures { SavedStatesAreStates }
{}

/// A guest that is adopted stands at the state at which it was captured, behind all guests that were there.
pub fn adopted_guests_go_on()
    ensures { AdoptedGuestsGoOn }
{}

/// The text of a guest behind three steps; and texts of another version, of nothing, and with a foreign byte.
pub fn worked_texts()
    ensures three_steps { TextOfThreeSteps }
    ensures another_version { AnotherVersion }
    ensures nothing { NothingAtAll }
    ensures foreign { ForeignByte }
{}
