//! What names are made of, and the other expressions with no part.

ghost use Rattle.std.specs.Prelude.{◌≡◌, ◌+◌, ◌≤◌, length, IfOk};
ghost use Rattle.pg_word.specs.Bits.{IsWidth};
ghost use Rattle.pg_vec.specs.There.{AreThere};
ghost use Rattle.pg_lang_meaning.specs.Fields.{field_as};
ghost use Rattle.pg_symex.specs.Exprs.{field_bits, name_bits};
ghost use Rattle.pg_symex.specs.EntryView.{entry_as};

use crate::entry::Entry;
use crate::lets::Lets;
use pg_lang_meaning::Field;
use pg_vec::Bits;
use std::alloc::{AllocError, Global};

/// The bits of the fetched word that stand in a field, which lies within it.
fn field_gates(alloc: Global, word: &Bits, field: Field) -> Result<Bits, AllocError>
    requires some { 1 ≤ field.width }
    requires within { field.width + field.low ≤ length word.now }
    ensures { IfOk result (λ bits. bits ≡ field_bits (field_as field) word.now) }
{
    let gates = word.as_slice();
    let top = field.low + field.width;
    Bits::from_slice(alloc, &gates[field.low as usize..top as usize])
}

/// The bits of a name: those of its field, or of the newest visible let, of which there is one.
pub fn name_gates(
    alloc: Global,
    at: &Entry<'_>,
    lets: &Lets<'_>,
    name: &[u8],
) -> Result<Bits, AllocError>
    requires pattern { length at.now.pattern.now ≡ length at.now.word.now }
    requires width { IsWidth (length (name_bits (entry_as at.now) lets.now name.now)) }
    ensures { IfOk result (λ bits. bits ≡ name_bits (entry_as at.now) lets.now name.now) }
{
    match at.decoder.field(at.pattern, name) {
        None => lets.bits(alloc, name),
        Some(field) => field_gates(alloc, at.word, field),
    }
}
