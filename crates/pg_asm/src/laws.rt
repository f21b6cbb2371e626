//! What follows from the definitions alone, for those who read them: none of it does anything when it runs.

ghost use Rattle.std.specs.Prelude.{◌≡◌, ℕ, ◌%◌, ◌^◌, ◌<◌, ◌≤◌, List, length, All, true, Some, Ok, slice_get};
ghost use Rattle.pg_ast.specs.declared.tree.Instr.{Instr as Instrs};
ghost use Rattle.pg_lang_meaning.specs.Patterns.{matches};
ghost use Rattle.pg_lang_valid.specs.Valid.{IsValid};
ghost use Rattle.pg_image.specs.Images.{image_due};
ghost use Rattle.pg_asm.specs.Words.{IsWordOf, kept_bits, word_by, fields_of, fit, pattern_of, decoded};
ghost use Rattle.pg_asm.specs.Sources.{most_source_bytes, source_due};
ghost use Rattle.pg_asm.specs.Texts.{asm_text, source_text};

use pg_ast::Desc;

/// There is at most one word of a pattern and values.
pub fn one_word()
    ensures { (pattern values : List ℕ) (x y : ℕ) → IsWordOf pattern values x → IsWordOf pattern values y → x ≡ y }
{}

/// Where the values fit the fields there is one.
pub fn fitting_values_have_a_word()
    ensures { (pattern values : List ℕ) → fit (fields_of pattern) values ≡ true → IsWordOf pattern values (word_by pattern values) }
{}

/// The word of an instruction and values is decoded to that instruction and these values.
pub fn words_of_decode(desc: &Desc)
    requires { IsValid desc.now }
    ensures { (number word : ℕ) (i : Instrs) (values : List ℕ) → slice_get desc.now.instrs number ≡ Some i → IsWordOf i.pattern.bytes values word →
        decoded desc.now.instrs word ≡ Some (number, values) }
{}

/// The instruction that a word is decoded to matches it. The values fit its fields, and their word is that word, but for free places.
pub fn decoded_words_are_words_of(desc: &Desc)
    ensures there { (word number : ℕ) (values : List ℕ) → decoded desc.now.instrs word ≡ Some (number, values) → number < length desc.now.instrs }
    ensures matched { (word number : ℕ) (values : List ℕ) → decoded desc.now.instrs word ≡ Some (number, values) →
        matches (pattern_of desc.now.instrs number) word ≡ true }
    ensures fit { (word number : ℕ) (values : List ℕ) → decoded desc.now.instrs word ≡ Some (number, values) →
        fit (fields_of (pattern_of desc.now.instrs number)) values ≡ true }
    ensures again { (word number : ℕ) (values : List ℕ) → decoded desc.now.instrs word ≡ Some (number, values) →
        word_by (pattern_of desc.now.instrs number) values ≡ kept_bits (pattern_of desc.now.instrs number) word }
{}

/// The text of `asm`, read as an image of the same size, is the image that it shows. No size of a machine passes 2^20.
pub fn asm_text_reads_back()
    ensures { (w size : ℕ) (cells : List ℕ) → w % 8 ≡ 0 → 16 ≤ w → w ≤ 64 → length cells ≡ size → size ≤ 2 ^ 20 →
        All (λ cell. cell < 2 ^ w) cells → image_due w size (asm_text w 0 cells) ≡ Ok cells }
{}

/// The image of a source has as many cells as the size, and each fits.
pub fn assembled_images_fit(desc: &Desc)
    requires { IsValid desc.now }
    ensures len { (size : ℕ) (text cells : List ℕ) → source_due desc.now size text ≡ Ok cells → length cells ≡ size }
    ensures fit { (size : ℕ) (text cells : List ℕ) → source_due desc.now size text ≡ Ok cells → All (λ cell. cell < 2 ^ desc.now.word) cells }
{}

/// So the text of `asm` of a source's image, read as an image of the same size, is the source's image.
pub fn assembled_text_reads_back(desc: &Desc)
    requires { IsValid desc.now }
    ensures { (size : ℕ) (text cells : List ℕ) → size ≤ desc.now.size → source_due desc.now size text ≡ Ok cells →
        image_due desc.now.word size (asm_text desc.now.word 0 cells) ≡ Ok cells }
{}

/// What `disassemble` writes of an image assembles to that image, at its size, where the text is not too long for a source.
pub fn disassembled_text_assembles(desc: &Desc)
    requires { IsValid desc.now }
    ensures { (size : ℕ) (cells : List ℕ) → length cells ≡ size → size ≤ desc.now.size → All (λ cell. cell < 2 ^ desc.now.word) cells →
        length (source_text desc.now 0 cells) ≤ most_source_bytes → source_due desc.now size (source_text desc.now 0 cells) ≡ Ok cells }
{}
