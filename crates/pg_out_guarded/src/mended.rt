//! A mended description as text.

ghost use Rattle.std.specs.Prelude.{◌≡◌, ◌≢◌, ◌↔◌, false, bytes_eq, Some, Ok, IsTrue, IfOk};
ghost use Rattle.pg_ast.specs.Tokens.{tokens_of};
ghost use Rattle.pg_text.specs.Cutting.{tokens_in};
ghost use Rattle.pg_lang_print.specs.Layout.{printed};
ghost use Rattle.pg_read.specs.Answer.{IsAnswer};
ghost use Rattle.pg_out_guarded.specs.Texts.{text_with_guards, CannotKeep};

use crate::putting::with_guards;
use pg_ast::Desc;
use pg_lang_print::print;
use pg_read::{DescFault, read_desc};
use std::alloc::{AllocError, Global};

/// The layout of a mended text.
#[derive(Clone, Copy, Debug, PartialEq, Eq)]
pub enum Layout {
    /// That of the text which was mended.
    Kept,
    /// That of `pgv print`.
    Printed,
}

/// The text of a mended description.
#[derive(Drop)]
pub struct MendedText {
    /// Its bytes.
    pub bytes: Vec<u8>,
    /// Its layout.
    pub layout: Layout,
}

/// Whether two texts are the same.
fn is_same(x: &[u8], y: &[u8]) -> bool
    ensures { result ≡ bytes_eq x.now y.now }
{
    x == y
}

/// That a text is not read.
fn not_read(fault: DescFault) -> Result<bool, AllocError>
    ensures { IfOk result (λ is. (is ≡ false) × (fault ≢ DescFault.Memory)) }
{
    match fault {
        DescFault::Memory => Err(AllocError),
        DescFault::Long | DescFault::Token(_) | DescFault::Grammar(_) | DescFault::Deep(_) => Ok(
            false,
        ),
    }
}

/// Whether a text reads as a description that is printed so, within the reader's limit.
fn reads_as(alloc: Global, text: &[u8], desc: &Desc, laid_out: &[u8]) -> Result<bool, AllocError>
    requires printed { laid_out.now ≡ printed desc.now }
    requires reads { tokens_in laid_out.now ≡ Some (tokens_of desc.now) }
    ensures { IfOk result (λ is. IsTrue is ↔ IsAnswer text.now (Ok desc.now)) }
{
    match read_desc(alloc, text) {
        Ok(read) => {
            let again = print(alloc, &read)?;
            Ok(is_same(again.as_slice(), laid_out))
        }
        Err(fault) => not_read(fault),
    }
}

/// The text of a mended description: that of the description with guards put into the bodies with a mark, exactly where it
/// reads as the mended one, and else the mended one printed. `text` is that of the description, with a mark for each of its instructions, and
/// `desc` is the mended one.
///
/// # Errors
/// Only for lack of memory.
pub fn mended_text(
    alloc: Global,
    text: &[u8],
    marks: &[bool],
    desc: &Desc,
) -> Result<MendedText, AllocError>
    ensures reads { IfOk result (λ mended. tokens_in mended.bytes.items ≡ Some (tokens_of desc.now)) }
    ensures kept { IfOk result (λ mended. mended.layout ≡ Layout.Kept → text_with_guards marks.now text.now ≡ Some mended.bytes.items) }
    ensures cannot { IfOk result (λ mended. mended.layout ≡ Layout.Printed → CannotKeep marks.now text.now desc.now) }
    ensures printed { IfOk result (λ mended. mended.layout ≡ Layout.Printed → mended.bytes.items ≡ printed desc.now) }
{
    let printed = print(alloc, desc)?;
    if let Some(bytes) = with_guards(alloc, text, marks)? {
        if reads_as(alloc, bytes.as_slice(), desc, printed.as_slice())? {
            return Ok(MendedText {
                bytes,
                layout: Layout::Kept,
            });
        }
    }
    Ok(MendedText {
        bytes: printed,
        layout: Layout::Printed,
    })
}
