//! What `bare` asks for.
ghost use Rattle.std.specs.Prelude.{◌≡◌, IfOk};
ghost use Rattle.clap.specs.Words.{found_of, rows_of};
ghost use Rattle.pg_cli_table.specs.declared.names.CommandName.TheVariants as name;
ghost use Rattle.pg_cli_parse.specs.Asked.{asked_of};
ghost use Rattle.pg_cli_parse.specs.Entered.{HoldsRows};

use crate::arguments::file_name;
use crate::running::{grant, steps};
use clap::ArgMatches;
use pg_cli_table::{BareWords, Request};
use std::alloc::{AllocError, Global};

/// What its arguments ask for.
pub(crate) fn asked(alloc: Global, matches: &ArgMatches<'_>) -> Result<Option<Request>, AllocError>
    requires { HoldsRows name.Bare (rows_of (found_of matches.now)) }
    ensures { IfOk result (λ r. asked_of name.Bare (rows_of (found_of matches.now)) ≡ r) }
{
    let grant = grant(matches);
    let steps = steps(matches);
    let desc = file_name(alloc, matches, "DESC")?;
    let image = file_name(alloc, matches, "IMAGE")?;
    Ok(Some(Request::Bare(BareWords {
        desc,
        image,
        grant,
        steps,
    })))
}
