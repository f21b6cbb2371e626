//! A description and a certificate of it, from their files.
//!
//! The description is loaded, and then the certificate, which is checked as it is read: nothing is believed that whoever wrote
//! it may have done.

ghost use Rattle.pg_cmd_certs.specs.Judged.{JudgedDue};
ghost use Rattle.pg_cmd_certs.specs.Views.{judged};
ghost use Rattle.pg_cmd_base.specs.Answering.{Comes, OnlyReads};

use crate::certified::load_certificate;
use crate::machine::JudgedMachine;
use pg_cert::Family;
use pg_cli_table::FileName;
use pg_cmd_base::{Stop, load_machine};
use pg_edge::Shelf;
use std::alloc::Global;

/// The machine that a file describes, and what is kept of the certificate of it that another file holds, of this family; or why
/// there is none.
pub fn load_judged<F: Shelf>(
    alloc: Global,
    family: Family,
    desc: &FileName,
    cert: &FileName,
    shelf: &mut F,
) -> Result<JudgedMachine, Stop>
    ensures comes { Comes judged (JudgedDue family desc.now cert.now (F.files shelf.old)) (F.reads shelf.old) (F.reads shelf.new) result }
    ensures reads { OnlyReads F.Shelf shelf.old shelf.new }
{
    let machine = match load_machine(alloc, desc, shelf) {
        Ok(machine) => machine,
        Err(stop) => return Err(stop),
    };
    match load_certificate(alloc, family, &machine, cert, shelf) {
        Ok(report) => Ok(JudgedMachine { machine, report }),
        Err(stop) => Err(stop),
    }
}
