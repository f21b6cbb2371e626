//! Files to a machine, its text, and what is kept of a certificate of it.

ghost use Rattle.std.specs.Prelude.{◌≡◌, ◌∷◌, [], ℕ, IfOk, IfErr, Err, Option};
ghost use Rattle.pg_ast.specs.declared.tree.Desc.{Desc};
ghost use Rattle.pg_edge.specs.Shelf.{Files};
ghost use Rattle.pg_cmd_base.specs.Descriptions.{DescDue};
ghost use Rattle.pg_cmd_certs.specs.Views.{judged};
ghost use Rattle.pg_read.specs.Answer.{most_desc_bytes};
ghost use Rattle.pg_cmd_base.specs.Answering.{Comes, OnlyReads};
ghost use Rattle.pg_cmd_base.specs.FileSteps.{HoldsWithin};
ghost use Rattle.pg_prog_explain.specs.Explaining.{ExplainDue, EitherJudgedDue, explain_words};

use crate::request::Request;
use pg_cli_table::FileName;
use pg_cmd_base::{Stop, load_file, load_machine, stop_of};
use pg_cmd_certs::JudgedMachine;
use pg_edge::{MemShelf, Shelf};
use pg_mach_ready::Machine;
use pg_prog_base::load_either;
use pg_read::DESC_BYTES;
use pg_report::{DescriptionLine, RefusalLine};
use std::alloc::{AllocError, Global};

/// What the files hold.
#[derive(Drop)]
pub struct Loaded {
    /// The text of the description.
    pub text: Vec<u8>,
    /// The machine that it describes, and what is kept of its certificate.
    pub judged: JudgedMachine,
}

/// The description's text, its machine and what is kept of the machine's certificate, of the family that the certificate's first bytes
/// say. The file of the description is read once, since it may be a pipe.
pub fn load<F: Shelf>(alloc: Global, shelf: &mut F, request: &Request<'_>) -> Result<Loaded, Stop>
    ensures comes { Comes (λ l. judged l.judged) (ExplainDue (explain_words request.now) (F.files shelf.old)) (F.reads shelf.old) (F.reads shelf.new) result }
    ensures reads { OnlyReads F.Shelf shelf.old shelf.new }
{
    match (named(alloc, request.desc), named(alloc, request.cert)) {
        (Ok(desc), Ok(cert)) => load_named(alloc, &desc, &cert, shelf),
        _ => Err(Stop::Memory),
    }
}

/// The name of a file.
fn named(alloc: Global, name: &str) -> Result<FileName, AllocError>
    ensures { IfOk result (λ n. n ≡ name.now) }
{
    Ok(FileName::new(String::from_str(alloc, name)?))
}

/// The same, of files of these names.
fn load_named<F: Shelf>(
    alloc: Global,
    desc: &FileName,
    cert: &FileName,
    shelf: &mut F,
) -> Result<Loaded, Stop>
    ensures comes { Comes (λ l. judged l.judged) (EitherJudgedDue desc.now cert.now (F.files shelf.old)) (F.reads shelf.old) (F.reads shelf.new) result }
    ensures reads { OnlyReads F.Shelf shelf.old shelf.new }
{
    let text = match load_text(alloc, desc, shelf) {
        Ok(text) => text,
        Err(stop) => return Err(stop),
    };
    let machine = match described(alloc, desc, text.as_slice()) {
        Ok(machine) => machine,
        Err(stop) => return Err(stop),
    };
    match load_either(alloc, &machine, cert, shelf) {
        Ok(report) => Ok(Loaded {
            text,
            judged: JudgedMachine { machine, report },
        }),
        Err(stop) => Err(stop),
    }
}

/// The bytes of the file of a description.
fn load_text<F: Shelf>(alloc: Global, name: &FileName, shelf: &mut F) -> Result<Vec<u8>, Stop>
    ensures ok { IfOk result (λ bytes. HoldsWithin (F.files shelf.old) name.now most_desc_bytes bytes.items) }
    ensures stops { IfErr result (λ why. Comes {T = Desc} (λ d. d) (DescDue (F.files shelf.old) name.now) (F.reads shelf.old) (F.reads shelf.new) (Err why)) }
    ensures reads { OnlyReads F.Shelf shelf.old shelf.new }
{
    match load_file(alloc, name, DESC_BYTES as u64, shelf) {
        Ok(bytes) => Ok(bytes),
        Err(fault) => Err(stop_of(fault, RefusalLine::Description(DescriptionLine::Long))),
    }
}

/// The machine that a text describes, which was read from the file of this name: it is loaded from a shelf that holds no other file.
fn described(alloc: Global, name: &FileName, text: &[u8]) -> Result<Machine, Stop>
    ensures { (told : Option Files) (reads : ℕ) → HoldsWithin told name.now most_desc_bytes text.now →
        Comes (λ m. m.desc) (DescDue told name.now) reads reads result }
{
    let mut shelf = match holding(alloc, name, text) {
        Ok(shelf) => shelf,
        Err(_) => return Err(Stop::Memory),
    };
    match load_machine(alloc, name, &mut shelf) {
        Ok(machine) => Ok(machine),
        Err(Stop::Refused(why)) => Err(Stop::Refused(why)),
        // No read of this shelf is listed to fail.
        Err(Stop::ReadFault | Stop::Memory) => Err(Stop::Memory),
    }
}

/// A shelf in memory with one file.
fn holding(alloc: Global, name: &FileName, text: &[u8]) -> Result<MemShelf, AllocError>
    ensures { IfOk result (λ shelf. shelf.files ≡ (name.now, text.now) ∷ []) }
{
    let file = (
        String::from_str(alloc, name.as_str())?,
        Vec::from_slice(alloc, text)?,
    );
    let mut files = Vec::new(alloc);
    if files.push(file).is_err() {
        return Err(AllocError);
    }
    MemShelf::new(alloc, files, text.len(), Vec::new(alloc))
}
