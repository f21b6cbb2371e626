//! The texts of a finding that is refuted.

ghost use Rattle.std.specs.Prelude.{◌≡◌, ◌<◌, length, slice_get, Some, IfOk};
ghost use Rattle.pg_cert.specs.declared.cert.Finding.TheVariants.{Refuted};
ghost use Rattle.pg_prog_base.specs.Imported.{IsOfText};
ghost use Rattle.pg_proof.specs.Log.{IsClosedLog};
ghost use Rattle.pg_prog_proofs.specs.Exported.{AreTexts, AreTextsAt};

use pg_ask::{Asked, ask};
use pg_cert::{Cert, Finding, instr_of, kind_of};
use pg_mach_ready::Machine;
use pg_prog_base::{Names, Stop, lrat_of, text_of};
use pg_proof::ActList;
use std::alloc::{AllocError, Global};

/// The texts of a finding.
#[derive(Drop)]
pub struct Texts {
    /// Its log, LRAT.
    pub log: Vec<u8>,
    /// The clauses of its question, DIMACS.
    pub clauses: Vec<u8>,
}

/// The texts of the finding at a place of a certificate that was made anew, where it is refuted. `Shown` and `Open` come where it
/// is not, and `Memory`.
pub fn texts_at(
    alloc: Global,
    machine: &Machine,
    cert: &Cert,
    place: usize,
    names: &Names<'_>,
) -> Result<Texts, Stop>
    requires made { IsOfText machine.now.desc cert.now }
    requires there { place < length cert.now.findings }
    ensures { IfOk result (λ t. AreTextsAt machine.now.desc cert.now place t.log.items t.clauses.items) }
{
    match &cert.findings.as_slice()[place] {
        Finding::Refuted(acts) => texts_of(alloc, machine, cert, place, acts, names),
        Finding::Shown(..) => Err(Stop::Shown),
        Finding::Spent(..) => Err(Stop::Open),
    }
}

/// The same of the log that stands at a place.
fn texts_of(
    alloc: Global,
    machine: &Machine,
    cert: &Cert,
    place: usize,
    acts: &ActList,
    names: &Names<'_>,
) -> Result<Texts, Stop>
    requires made { IsOfText machine.now.desc cert.now }
    requires at { slice_get cert.now.findings place ≡ Some (Refuted acts.now) }
    ensures { IfOk result (λ t. AreTextsAt machine.now.desc cert.now place t.log.items t.clauses.items) }
{
    let instr = instr_of(cert.family, place);
    let kind = kind_of(cert.family, place);
    match ask(alloc, machine, instr, kind) {
        Ok(asked) => both_of(alloc, &asked, acts, names),
        Err(_) => Err(Stop::Memory),
    }
}

/// The log of a question, and its clauses.
fn both_of(
    alloc: Global,
    asked: &Asked<'_>,
    acts: &ActList,
    names: &Names<'_>,
) -> Result<Texts, Stop>
    requires { IsClosedLog asked.now.cnf.clauses acts.now }
    ensures { IfOk result (λ t. AreTexts asked.now.cnf.clauses acts.now t.log.items t.clauses.items) }
{
    // no log that was read is so long: it has a byte for each act
    if acts.len() >= 1 << 32 {
        return Err(Stop::Memory);
    }
    let log = lrat_of(alloc, asked.cnf(), acts)?;
    let clauses = text_of(alloc, names, asked)?;
    Ok(Texts { log, clauses })
}
