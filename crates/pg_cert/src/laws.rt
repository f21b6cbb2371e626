//! What follows from the definitions alone: none of it does anything when it runs.

ghost use Rattle.std.specs.Prelude.{◌≡◌, ◌≢◌, ℕ, ◌==◌, ℤ, List, [], ◌∷◌, ◌++◌, Some};
ghost use Rattle.std.specs.List.{All, slice_split};
ghost use Rattle.pg_word.specs.Shape.{IsShape};
ghost use Rattle.pg_word.specs.declared.shape.Shape.{Shape};
ghost use Rattle.pg_word.specs.declared.sparse.Sparse.{Sparse};
ghost use Rattle.pg_word.specs.Sparse.{IsCellList, storage_of};
ghost use Rattle.pg_ast.specs.declared.tree.Desc.{Desc};
ghost use Rattle.pg_ast.specs.declared.tree.Instr.{Instr};
ghost use Rattle.pg_lang_meaning.specs.States.{shape_of};
ghost use Rattle.pg_type.specs.declared.kind.Kind.{Kind};
ghost use Rattle.pg_type.specs.Kinds.{Shows};
ghost use Rattle.pg_type.specs.Listed.{state_of};
ghost use Rattle.pg_image.specs.Lines.{state_text};
ghost use Rattle.pg_cert.specs.declared.cert.Cert.{Cert};
ghost use Rattle.pg_cert.specs.declared.line.Heading.{Heading};
ghost use Rattle.pg_cert.specs.declared.line.Line.{Line};
ghost use Rattle.pg_cert.specs.Lines.{line_text, IsLine};
ghost use Rattle.pg_cert.specs.Reading.{read_parts, but_last};
ghost use Rattle.pg_cert.specs.Parsing.{Says, said};
ghost use Rattle.pg_cert.specs.InRange.{ValidCertificatesAreInRange, TrimmedLogsMayStand};
ghost use Rattle.pg_cert.specs.Texts.{state_lines, lines_text, cert_text, AreListed, DoStateWordsFit, DoFindingWordsFit, IsSpellable};
ghost use Rattle.pg_cert.specs.Validity.{IsValidCert};

/// What is read of the parts of a line's text, which stand between its spaces, is the line.
pub fn lines_are_read()
    ensures { (shape : Shape) → IsShape shape → (line : Line) → IsLine shape line →
        read_parts shape.w (slice_split (λ c. c == 32) (but_last (line_text shape line))) ≡ Some line }
{}

/// A text is that of one line at most.
pub fn lines_have_one_text()
    ensures { (shape : Shape) (x y : Line) → IsShape shape → IsLine shape x → IsLine shape y → line_text shape x ≡ line_text shape y → x ≡ y }
{}

/// The text of a line in range says the line.
pub fn lines_are_said()
    ensures { (shape : Shape) → IsShape shape → (line : Line) → IsLine shape line → said shape (line_text shape line) ≡ Says line }
{}

/// What bytes say is a line in range, and they are its text.
pub fn said_lines_are_spelled()
    ensures { (shape : Shape) (bytes : List ℕ) (line : Line) → said shape bytes ≡ Says line → IsLine shape line × (bytes ≡ line_text shape line) }
{}

/// The text of a line in range has LF as its last byte, and nowhere else.
pub fn lines_end_once()
    ensures ends { (shape : Shape) (line : Line) → line_text shape line ≡ but_last (line_text shape line) ++ 10 ∷ [] }
    ensures once { (shape : Shape) → IsShape shape → (line : Line) → IsLine shape line → All (λ c. c ≢ 10) (but_last (line_text shape line)) }
{}

/// The lines of a state are the text by which states are shown.
pub fn states_are_shown()
    ensures { (shape : Shape) (s : Sparse) → lines_text shape (state_lines s) ≡ state_text shape.w (storage_of s.size s.cells) s.psw }
{}

/// The listed words of two states that show a kind have as many bits as a word of the machine, so that they can be written.
pub fn shown_states_fit()
    ensures { (d : Desc) (i : Instr) (kind : Kind) (s t : Sparse) → IsCellList s.cells → IsCellList t.cells →
        Shows d i kind (state_of s) (state_of t) → DoStateWordsFit d.word s × DoStateWordsFit d.word t }
{}

/// The listed words of the states of a valid certificate have as many bits as a word of the machine: each valid
/// certificate can be written.
pub fn valid_certificates_fit()
    ensures { (question : Instr → Kind → List (List ℤ)) (heading : Heading) (d : Desc) (cert : Cert) →
        All AreListed cert.findings → IsValidCert question heading d cert → All (DoFindingWordsFit d.word) cert.findings }
{}

/// A text is that of one certificate at most, under one heading: of those whose lines are in range, and whose states
/// that are shown list their cells in the one way.
pub fn certificates_have_one_text()
    ensures { (d : Desc) → IsShape (shape_of d) → (h k : Heading) (x y : Cert) → IsSpellable h d x → IsSpellable k d y →
        cert_text d h x ≡ cert_text d k y → (h ≡ k) × (x ≡ y) }
{}

/// The lines of a valid certificate are in range, where its logs have few enough steps for their numbers.
pub fn valid_certificates_are_in_range()
    ensures { ValidCertificatesAreInRange }
{}

/// A log that was trimmed can stand in a certificate, under each heading that lets clauses be taken away.
pub fn trimmed_logs_may_stand()
    ensures { TrimmedLogsMayStand }
{}
