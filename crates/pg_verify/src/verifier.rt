//! The verifier, as its callers see it.
//!
//! A verifier is fed the bytes of a text, in parts as they come, and then finished; or it is handed whole lines. Whatever the
//! parts are, it answers what `verified` says of the whole text. Once it has refused it answers the same refusal.

ghost use Rattle.std.specs.Prelude.{◌≡◌, ◌≢◌, ℕ, IfErr, OnOk, IsOk, Ok, Err};
ghost use Rattle.pg_type.specs.declared.kind.Kind.{Kind as Kinds};
ghost use Rattle.pg_cert.specs.declared.cert.Family.TheVariants.{Plain, Hybrid};
ghost use Rattle.pg_verify.specs.declared.fault.VerifyFault.TheVariants.{Memory, Missing};
ghost use Rattle.pg_verify.specs.Taking.{then_take};
ghost use Rattle.pg_verify.specs.Feeding.{begun, fed, lined, finished, verified_whole, IsAnswer};
ghost use Rattle.pg_verify.specs.Verified.{IsAsked};

use crate::fault::VerifyFault;
use crate::reading::{CERT_BYTES, Reading};
use pg_cert::{Family, Report};
use pg_mach_ready::Machine;
use std::alloc::Global;
use std::marker::Model;

/// A text that is being verified, or why it is refused.
#[derive(Drop)]
pub struct Verifier<'m> {
    reading: Reading<'m>,
    fault: Option<VerifyFault>,
}

impl<'m> Model for Verifier<'m> {
    ghost use Rattle.std.specs.Prelude.{◌≡◌, ◌+◌, ◌≤◌, length, None};
    ghost use Rattle.pg_ast.specs.contracts.tree.Stmt as s;
    ghost use Rattle.std.specs.Coded.{codes};
    ghost use Rattle.pg_verify.specs.Reader.{Reader};
    ghost use Rattle.pg_verify.specs.Seen.{reader_of};

    ghost Value = { Reader };

    ghost coded = { Prim.hlevel (codes, s.the_row.coded) };

    ghost view = { λ v. reader_of v.fault v.reading };

    ghost invariant = { λ v. v.fault ≡ None → v.reading.lines + length v.reading.rest ≤ v.reading.fed };
}

impl<'m> Verifier<'m> {
    /// A verifier of a text in which the kinds of Theorem 1 are asked about. It takes no memory yet.
    pub fn new(alloc: Global, machine: &'m Machine) -> Verifier<'m>
        ensures { result ≡ Ok (begun machine.now.desc Plain) }
    {
        Verifier {
            reading: Reading::new(alloc, machine, Family::Plain),
            fault: None,
        }
    }

    /// The same for the kinds of Theorem 3.
    pub fn hybrid(alloc: Global, machine: &'m Machine) -> Verifier<'m>
        ensures { result ≡ Ok (begun machine.now.desc Hybrid) }
    {
        Verifier {
            reading: Reading::new(alloc, machine, Family::Hybrid),
            fault: None,
        }
    }

    /// The next bytes of the text, however it is cut. It is refused with the first fault of its lines, or with `Long` at the
    /// byte with which it is too long, and then for good: each call after a refusal answers the same one. `Memory` is a refusal
    /// too, but says nothing of the text.
    ///
    /// Beside the questions that are asked as findings open, it costs the length of the bytes and of the clauses that the
    /// hints of steps name, and for steps of a spent log of those that hang at its literals. The memory taken is that of one
    /// question, of the clauses held of one log, of the marks, and of a line that is not whole.
    pub fn feed(&mut self, bytes: &[u8]) -> Result<(), VerifyFault>
        ensures same { IfErr self.old (λ f. result ≡ Err f) }
        ensures fed { OnOk result (then_take self.old (λ p. fed p bytes.now) ≡ self.new) }
        ensures some { OnOk result (IsOk self.new) }
        ensures refused { IfErr result (λ f. self.new ≡ Err f) }
        ensures due { IfErr result (λ f. f ≢ Memory → then_take self.old (λ p. fed p bytes.now) ≡ Err f) }
    {
        if let Some(fault) = self.fault {
            return Err(fault);
        }
        match self.reading.feed(bytes) {
            Ok(()) => Ok(()),
            Err(fault) => {
                self.fault = Some(fault);
                Err(fault)
            }
        }
    }

    /// The next line, its LF among the bytes: without one it is refused. After a refusal the same is answered.
    pub fn line(&mut self, bytes: &[u8]) -> Result<(), VerifyFault>
        ensures same { IfErr self.old (λ f. result ≡ Err f) }
        ensures fed { OnOk result (then_take self.old (λ p. lined p bytes.now) ≡ self.new) }
        ensures some { OnOk result (IsOk self.new) }
        ensures refused { IfErr result (λ f. self.new ≡ Err f) }
        ensures due { IfErr result (λ f. f ≢ Memory → then_take self.old (λ p. lined p bytes.now) ≡ Err f) }
    {
        if let Some(fault) = self.fault {
            return Err(fault);
        }
        match self.reading.take_lined(bytes) {
            Ok(()) => Ok(()),
            Err(fault) => {
                self.fault = Some(fault);
                Err(fault)
            }
        }
    }

    /// No byte comes any more: the report of the text, or why it is refused. After a refusal the same is answered.
    pub fn finish(self) -> Result<Report, VerifyFault>
        ensures same { IfErr self.entry (λ f. result ≡ Err f) }
        ensures due { IsAnswer (then_take self.entry finished) result }
    {
        let Verifier { reading, fault } = self;
        match fault {
            Some(fault) => Err(fault),
            None => reading.finish(),
        }
    }
}

/// The report of a whole text, in which the kinds of Theorem 1 are asked about, or why it is refused. That it is too long is
/// told before all else. A finding that is told to be missing is of an instruction that exists, and of a kind of Theorem 1.
#[tactic(auto, unfolding(crate::specs::Feeding::verified))]
pub fn verify(alloc: Global, machine: &Machine, bytes: &[u8]) -> Result<Report, VerifyFault>
    ensures answer { IsAnswer (verified_whole machine.now.desc Plain bytes.now) result }
    ensures asked { (instr : ℕ) (kind : Kinds) → result ≡ Err (Missing instr kind) → IsAsked machine.now.desc Plain instr kind }
{
    if bytes.len() > CERT_BYTES as usize {
        return Err(VerifyFault::Long);
    }
    finish_with(Verifier::new(alloc, machine), bytes)
}

/// The last bytes of a text are fed, and it is finished.
fn finish_with(mut verifier: Verifier<'_>, bytes: &[u8]) -> Result<Report, VerifyFault>
    ensures { IsAnswer (then_take (then_take verifier.entry (λ p. fed p bytes.now)) finished) result }
{
    match verifier.feed(bytes) {
        Ok(()) => verifier.finish(),
        Err(fault) => Err(fault),
    }
}
