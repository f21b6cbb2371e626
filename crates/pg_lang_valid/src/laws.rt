//! What validity tells, for those who read the definitions: none of it does anything when it runs.

ghost use Rattle.std.specs.Prelude.{◌≡◌, ℕ, ◌+◌, ◌<◌, ◌≤◌, ◌↔◌, true, List, length, None, Some, slice_get};
ghost use Rattle.pg_ast.specs.declared.tree.Instr.{Instr as Instrs};
ghost use Rattle.pg_lang_meaning.specs.Patterns.{Field as Fields, matches, field_of};
ghost use Rattle.pg_lang_valid.specs.Overlaps.{clash};
ghost use Rattle.pg_lang_valid.specs.Valid.{IsValid, fault_of};

use pg_ast::Desc;

/// A description has no fault exactly where it is valid.
pub fn valid_where_no_fault(desc: &Desc)
    ensures { (fault_of desc.now ≡ None) ↔ IsValid desc.now }
{}

/// Two patterns of one length that clash match no word both.
pub fn clash_keeps_apart(p: &[u8], q: &[u8], word: u64)
    requires lengths { length p.now ≡ length q.now }
    requires clash { clash p.now q.now ≡ true }
    requires first { matches p.now word ≡ true }
    ensures { matches q.now word ≡ true → ⊥ }
{}

/// Of a valid description at most one pattern matches a word.
pub fn one_pattern_matches(desc: &Desc, word: u64)
    requires { IsValid desc.now }
    ensures { (i j : ℕ) (x y : Instrs) → i < j → slice_get desc.now.instrs i ≡ Some x → slice_get desc.now.instrs j ≡ Some y → matches x.pattern.bytes word ≡ true → matches y.pattern.bytes word ≡ true → ⊥ }
{}

/// A field of a valid description lies within the word.
pub fn field_within_word(desc: &Desc)
    requires { IsValid desc.now }
    ensures { (i : ℕ) (x : Instrs) (name : List ℕ) (f : Fields) → slice_get desc.now.instrs i ≡ Some x → field_of x.pattern.bytes name ≡ Some f → f.low + f.width ≤ desc.now.word }
{}
