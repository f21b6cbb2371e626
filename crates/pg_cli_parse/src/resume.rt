//! What `resume` asks for.
ghost use Rattle.std.specs.Prelude.{◌≡◌, IfOk, codes};
ghost use Rattle.clap.specs.Words.{found_of, rows_of};
ghost use Rattle.pg_cli_table.specs.Resume as spec;
ghost use Rattle.pg_cli_table.specs.declared.names.CommandName.TheVariants as name;
ghost use Rattle.pg_cli_parse.specs.Arguments.{Holds, number_or};
ghost use Rattle.pg_cli_parse.specs.Asked.{asked_of};
ghost use Rattle.pg_cli_parse.specs.Entered.{HoldsRows};
ghost use Rattle.pg_cli_parse.specs.Resume.{skip_unsaid};

use crate::arguments::{file_name, number_or};
use crate::running::steps;
use clap::ArgMatches;
use pg_cli_table::{Request, ResumeWords, Skip};
use std::alloc::{AllocError, Global};

/// What its arguments ask for.
pub(crate) fn asked(alloc: Global, matches: &ArgMatches<'_>) -> Result<Option<Request>, AllocError>
    requires { HoldsRows name.Resume (rows_of (found_of matches.now)) }
    ensures { IfOk result (λ r. asked_of name.Resume (rows_of (found_of matches.now)) ≡ r) }
{
    let steps = steps(matches);
    let skip = skip(matches);
    let desc = file_name(alloc, matches, "DESC")?;
    let cert = file_name(alloc, matches, "CERT")?;
    let saved = file_name(alloc, matches, "SAVED")?;
    Ok(Some(Request::Resume(ResumeWords {
        desc,
        cert,
        saved,
        steps,
        skip,
    })))
}

/// How many cells are held before the guest's own: the number that the words say, and else none.
fn skip(matches: &ArgMatches<'_>) -> Skip
    requires { Holds spec.skip (rows_of (found_of matches.now)) }
    ensures { number_or (codes "skip") skip_unsaid (rows_of (found_of matches.now)) ≡ result }
{
    Skip::new(number_or(matches, "skip", 0) as u32)
}
