//! What follows from the definitions alone, for those who read them: none of it does anything when it runs.

ghost use Rattle.std.specs.Prelude.{ℕ, ◌+◌, ◌≤◌, All, List, length};
ghost use Rattle.pg_ast.specs.declared.tree.Instr.{Instr};
ghost use Rattle.pg_mach_ready.specs.Telling.{TellsMost};

/// The bits that tell the most instructions apart lie within the word, where words have at least eight bits.
pub fn bits_lie_within_the_word()
    ensures { (instrs : List Instr) (n shift : ℕ) → All (λ i. length i.pattern.bytes ≤ n) instrs → 8 ≤ n → TellsMost instrs shift → shift + 8 ≤ n }
{}
