//! What `hcheck` asks for.
ghost use Rattle.std.specs.Prelude.{◌≡◌, IfOk};
ghost use Rattle.clap.specs.Words.{found_of, rows_of};
ghost use Rattle.pg_cli_table.specs.declared.names.CommandName.TheVariants as name;
ghost use Rattle.pg_cli_parse.specs.Asked.{asked_of};
ghost use Rattle.pg_cli_parse.specs.Entered.{HoldsRows};

use crate::check::words;
use clap::ArgMatches;
use pg_cli_table::Request;
use std::alloc::{AllocError, Global};

/// What its arguments ask for.
pub(crate) fn asked(alloc: Global, matches: &ArgMatches<'_>) -> Result<Option<Request>, AllocError>
    requires { HoldsRows name.Hcheck (rows_of (found_of matches.now)) }
    ensures { IfOk result (λ r. asked_of name.Hcheck (rows_of (found_of matches.now)) ≡ r) }
{
    Ok(Some(Request::Hcheck(words(alloc, matches)?)))
}
