//! What follows from the definitions alone: none of it does anything when it runs.

ghost use Rattle.std.specs.Prelude.{◌≡◌, ℕ, ◌%◌, ◌≤◌, All, length};
ghost use Rattle.pg_ast.specs.declared.tree.Desc.{Desc};
ghost use Rattle.pg_lang_valid.specs.Valid.{IsValid};
ghost use Rattle.pg_cmd_gen.specs.Draws.{draw};
ghost use Rattle.pg_cmd_gen.specs.Generated.{IsGenerated, most_instructions};
ghost use Rattle.pg_cmd_gen.specs.Images.{images_of, image_count, IsFilled};

/// Whatever the number, its description is valid.
pub fn generated_descriptions_are_valid()
    ensures { (number count : ℕ) (d : Desc) → 1 ≤ count → count ≤ most_instructions → IsGenerated number count d → IsValid d }
{}

/// A number has one description of so many instructions.
pub fn one_description_is_generated()
    ensures { (number count : ℕ) (d e : Desc) → IsGenerated number count d → IsGenerated number count e → d ≡ e }
{}

/// The first draws of two numbers, and the bodies that they choose.
pub fn worked_draws()
    ensures first_of_0 { draw 0 0 ≡ 335903614 }
    ensures body_of_0 { draw 0 0 % 6 ≡ 4 }
    ensures first_of_2 { draw 2 0 ≡ 3299435481 }
    ensures body_of_2 { draw 2 0 % 6 ≡ 3 }
{}

/// Whatever the number, its images are four, and each has the size and the words of its machine.
pub fn generated_images_fit()
    ensures filled { (number count : ℕ) → 1 ≤ count → count ≤ most_instructions → All IsFilled (images_of number count) }
    ensures four { (number count : ℕ) → length (images_of number count) ≡ image_count }
{}
