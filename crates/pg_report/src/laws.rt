//! What holds of every line.

ghost use Rattle.std.specs.Prelude.{◌≡◌};
ghost use Rattle.pg_ast.specs.declared.name.Name.{Name};
ghost use Rattle.pg_report.specs.Texts.{name_text};

/// A name is shown whole: it has no more bytes than a line shows of it.
pub fn names_are_shown_whole()
    ensures { (n : Name) → name_text n.bytes ≡ n.bytes }
{}
