//! Findings of logs and of assignments.

ghost use Rattle.std.specs.Prelude.{◌≡◌, ◌≤◌, ◌<◌, ℕ, true, length, map, slice_get, Some, IfOk};
ghost use Rattle.pg_ast.specs.declared.tree.Instr.{Instr};
ghost use Rattle.pg_cnf.specs.Truth.{clauses_true};
ghost use Rattle.pg_proof.specs.Log.{IsClosedLog};
ghost use Rattle.pg_cert.specs.declared.cert.Finding.TheVariants.{Shown};
ghost use Rattle.pg_cert.specs.Texts.{AreListed};
ghost use Rattle.pg_verify.specs.Feeding.{most_bytes};
ghost use Rattle.pg_prog_base.specs.Imported.{IsRight};

use pg_ask::{Asked, states_of};
use pg_cert::Finding;
use pg_classify::small;
use pg_proof::{ActList, trim};
use pg_word::Sparse;
use std::alloc::{AllocError, Global};

/// The finding of a closed log of a question, of at most as many acts as a certificate has bytes: the log, trimmed. It costs the trimming.
pub fn refuted(alloc: Global, asked: &Asked<'_>, log: &ActList) -> Result<Finding, AllocError>
    requires closed { IsClosedLog asked.now.cnf.clauses log.now }
    requires few { length log.now ≤ most_bytes }
    ensures { IfOk result (λ f. (i : Instr) → slice_get asked.now.machine.now.desc.instrs asked.now.instr ≡ Some i → IsRight asked.now.cnf.clauses asked.now.machine.now.desc i asked.now.kind f) }
{
    let acts = trim(alloc, asked.cnf(), log.as_slice())?;
    Ok(Finding::Refuted(acts))
}

/// The finding of two states. Their types keep that their cells are listed in the one way.
fn pair(first: Sparse, second: Sparse) -> Finding
    ensures finding { result ≡ Shown first second }
    ensures listed { AreListed result }
{
    // these calls say so to the prover
    let _ = first.cells.as_slice();
    let _ = second.cells.as_slice();
    Finding::Shown(first, second)
}

/// The finding of an assignment that makes all clauses of a question true: the states that it stands for, made small.
pub fn shown(alloc: Global, asked: &Asked<'_>, assignment: &[bool]) -> Result<Finding, AllocError>
    requires { clauses_true assignment.now asked.now.cnf.clauses ≡ true }
    ensures { IfOk result (λ f. (i : Instr) → slice_get asked.now.machine.now.desc.instrs asked.now.instr ≡ Some i → IsRight asked.now.cnf.clauses asked.now.machine.now.desc i asked.now.kind f) }
{
    let (first, second) = states_of(alloc, asked, assignment)?;
    let (one, other) = small(
        alloc,
        asked.machine(),
        asked.instr(),
        asked.kind(),
        first,
        second,
    );
    Ok(pair(one, other))
}
