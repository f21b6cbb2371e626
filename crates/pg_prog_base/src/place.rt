//! Where in a certificate a finding stands.

ghost use Rattle.std.specs.Prelude.{◌≡◌, ◌<◌, length, IfSome};
ghost use Rattle.pg_cert.specs.Texts.{instr_of, kind_of};
ghost use Rattle.pg_prog_base.specs.Imported.{IsPlaceOf};

use pg_cert::{Cert, instr_of, kind_of};
use pg_type::Kind;

/// The place of the finding of an instruction, by its number, and a kind. None where the certificate has no such instruction, or
/// the kind is none of its family. It costs the number of findings.
pub fn place_of(cert: &Cert, instr: usize, kind: Kind) -> Option<usize>
    ensures { IfSome result (IsPlaceOf cert.now instr kind) }
{
    for place in 0..cert.findings.len() {
        if instr_of(cert.family, place) == instr && kind_of(cert.family, place) == kind {
            return Some(place);
        }
    }
    None
}
