//! What follows from the definitions alone: none of it does anything when it runs.

ghost use Rattle.std.specs.Prelude.{ℕ, List, ◌+◌, ◌*◌, ◌/◌, ◌%◌, ◌^◌, ◌<◌, ◌≤◌, ◌≡◌, [], ◌∷◌, length, All};
ghost use Rattle.std.specs.Fmt.{decimal};
ghost use Rattle.pg_word.specs.declared.psw.Psw.{Psw};
ghost use Rattle.pg_image.specs.Lines.{size_text, psw_text, cells_text};
ghost use Rattle.pg_image.specs.Images.{rows_due};

/// How many bytes each line has.
pub fn line_lengths()
    ensures size { (n : ℕ) → length (size_text n) ≡ length (decimal n) + 6 }
    ensures psw { (x : Psw) → length (psw_text x) ≡ length (decimal x.p) + length (decimal x.l) + length (decimal x.b) + 9 }
    ensures cells { (w first : ℕ) (words : List ℕ) →
        length (cells_text w first words) ≡ length (decimal first) + length words * (w / 4 + 1) + 2 }
{}

/// A line of cells, read as the text of an image, makes the row that it shows.
pub fn cell_lines_read_back()
    ensures { (w first : ℕ) (words : List ℕ) → w % 8 ≡ 0 → 16 ≤ w → first < 10 ^ 7 →
        1 ≤ length words → All (λ word. word < 2 ^ w) words →
        rows_due w (cells_text w first words) ≡ Ok (record { line = 1; first = first; words = words } ∷ []) }
{}
