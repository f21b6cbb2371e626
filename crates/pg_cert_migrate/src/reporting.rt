//! A whole text verified piece by piece, so that a watcher can be told how far that has come.

ghost use Rattle.std.specs.Prelude.{◌≡◌, ◌≢◌, IfErr, IsOk, OnOk, Ok, Err};
ghost use Rattle.pg_verify.specs.declared.fault.VerifyFault.TheVariants.{Memory};
ghost use Rattle.pg_verify.specs.Taking.{then_take};
ghost use Rattle.pg_verify.specs.Feeding.{begun, fed, verified_whole, IsAnswer};

use crate::watching::ReadWatcher;
use pg_cert::{Family, Report};
use pg_mach_ready::Machine;
use pg_verify::{CERT_BYTES, Verifier, VerifyFault};
use std::alloc::Global;

/// How many bytes are verified between two calls of the watcher.
const PIECE: usize = 65_536;

/// The report of a whole text of a family, or why it is refused. The watcher is told how far it has been verified.
pub fn report<W: ReadWatcher>(
    alloc: Global,
    machine: &Machine,
    family: Family,
    bytes: &[u8],
    watcher: &mut W,
) -> Result<Report, VerifyFault>
    ensures { IsAnswer (verified_whole machine.now.desc family bytes.now) result }
{
    if bytes.len() > CERT_BYTES as usize {
        return Err(VerifyFault::Long);
    }
    let mut verifier = verifier_of(alloc, family, machine);
    match feed_all(&mut verifier, bytes, watcher) {
        Ok(()) => verifier.finish(),
        Err(fault) => Err(fault),
    }
}

/// A verifier of the certificates of a family, to which nothing was fed.
fn verifier_of<'m>(alloc: Global, family: Family, machine: &'m Machine) -> Verifier<'m>
    ensures { result ≡ Ok (begun machine.now.desc family) }
{
    match family {
        Family::Plain => Verifier::new(alloc, machine),
        Family::Hybrid => Verifier::hybrid(alloc, machine),
    }
}

/// Feeds all bytes piece by piece, and tells the watcher after each.
fn feed_all<W: ReadWatcher>(
    verifier: &mut Verifier<'_>,
    bytes: &[u8],
    watcher: &mut W,
) -> Result<(), VerifyFault>
    requires some { IsOk verifier.old }
    ensures fed { OnOk result (then_take verifier.old (λ p. fed p bytes.now) ≡ verifier.new) }
    ensures due { IfErr result (λ f. f ≢ Memory → then_take verifier.old (λ p. fed p bytes.now) ≡ Err f) }
{
    let mut left = bytes;
    'pieces: while !left.is_empty() {
        let (piece, rest) = left.split_at(left.len().min(PIECE));
        match verifier.feed(piece) {
            Ok(()) => left = rest,
            Err(fault) => return Err(fault),
        }
        watcher.reads(bytes.len().saturating_sub(left.len()), bytes.len());
    }
    Ok(())
}
