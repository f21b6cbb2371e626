//! Worked images: what the definitions say of texts, computed from them alone. None of it does anything when it runs.
//!
//! The words have 32 bits, and the storage has 8 cells.

ghost use Rattle.std.specs.Prelude.{◌≡◌, ◌++◌, [], ◌∷◌, codes, replicate};
ghost use Rattle.pg_image.specs.declared.fault.ImageFault.TheVariants.{Token, Grammar, Address, Overlap};
ghost use Rattle.pg_image.specs.Images.{image_due};

/// Texts that are images, and their cells. A CR separates, a comment ends before the LF, and letters have either case.
pub fn worked_images()
    ensures empty { image_due 32 8 [] ≡ Ok (replicate 8 0) }
    ensures one { image_due 32 8 (codes "2: 02000002") ≡ Ok (0 ∷ 0 ∷ 33554434 ∷ 0 ∷ 0 ∷ 0 ∷ 0 ∷ 0 ∷ []) }
    ensures two { image_due 32 8 (codes "6: 0000000a 0000000B # 1:" ++ 13 ∷ 10 ∷ codes "0: 00000001")
        ≡ Ok (1 ∷ 0 ∷ 0 ∷ 0 ∷ 0 ∷ 0 ∷ 10 ∷ 11 ∷ []) }
{}

/// Texts that are none, and the first fault of each. A foreign byte comes before a line of another form, wherever each
/// stands, and that before a row out of its place.
pub fn worked_faults()
    ensures token { image_due 32 8 (codes "2: 00" ++ 10 ∷ codes "x") ≡ Err (Token 6) }
    ensures grammar { image_due 32 8 (codes "7: 00000000 00000000" ++ 10 ∷ codes "2:00000001") ≡ Err (Grammar 2) }
    ensures no_word { image_due 32 8 (codes "# no word" ++ 10 ∷ codes "2:") ≡ Err (Grammar 2) }
    ensures address { image_due 32 8 (codes "7: 00000000 00000000") ≡ Err (Address 1) }
    ensures overlap { image_due 32 8 (codes "2: 00000001" ++ 10 ∷ 10 ∷ codes "1: 00000001 00000001") ≡ Err (Overlap 3) }
    ensures address_first { image_due 32 8 (codes "7: 00000001" ++ 10 ∷ codes "6: 00000001 00000001 00000001") ≡ Err (Address 2) }
{}
