//! What follows from the definitions of pairs alone, for those who read them: none of it does anything when it runs.

ghost use Rattle.std.specs.Prelude.{◌≡◌, [], ◌∷◌};
ghost use Rattle.pg_ast.specs.declared.tree.Instr.{Instr};
ghost use Rattle.pg_ast.specs.declared.tree.Desc.{Desc};
ghost use Rattle.pg_lang_meaning.specs.States.{State};
ghost use Rattle.pg_type.specs.declared.kind.Kind.{Kind};
ghost use Rattle.pg_type.specs.Kinds.{Shows};
ghost use Rattle.pg_type.specs.Pair.{Pair, IsPair, Relates, PairShows};
ghost use Rattle.pg_type.specs.PairStates.{IsOf, ShownAsPair};
ghost use Rattle.pg_type.specs.Placing.{state_around, window_of, zeros_around};

/// What a pair shows, its states show.
pub fn pairs_show()
    ensures { (d : Desc) (i : Instr) (kind : Kind) (x : Pair) (s t : State) → IsOf d kind x s t → PairShows d i kind x → Shows d i kind s t }
{}

/// Two states that show a kind are those of a pair that shows it.
pub fn shown_states_are_a_pair()
    ensures { (d : Desc) (i : Instr) (kind : Kind) (s t : State) → Shows d i kind s t → ShownAsPair d i kind s t }
{}

/// The window of a pair with zeros around it, under each program status word in a storage of its size, makes the states of
/// the pair.
pub fn states_around_are_of_a_pair()
    ensures { (d : Desc) (i : Instr) (kind : Kind) (x : Pair) → IsPair d i x → Relates kind x → IsOf d kind x (state_around x.first_size x.first x.window) (state_around x.second_size x.second x.window) }
{}

/// Windows and storages that can be worked out by hand: of two words at one address the first counts, also where it is
/// zero, and a word past the window is left out; a window lies at its place, or nowhere where the place is past the end.
pub fn worked_placings()
    ensures first { window_of ((1, 5) ∷ (3, 0) ∷ (1, 6) ∷ (3, 7) ∷ (4, 8) ∷ []) 4 ≡ 0 ∷ 5 ∷ 0 ∷ 0 ∷ [] }
    ensures inside { zeros_around 6 3 (7 ∷ 9 ∷ []) ≡ 0 ∷ 0 ∷ 0 ∷ 7 ∷ 9 ∷ 0 ∷ [] }
    ensures past_the_end { zeros_around 4 6 [] ≡ 0 ∷ 0 ∷ 0 ∷ 0 ∷ [] }
{}
