//! What `hybrid` asks for.
ghost use Rattle.std.specs.Prelude.{◌≡◌, IfOk, None, Ok};
ghost use Rattle.clap.specs.Words.{found_of, rows_of};
ghost use Rattle.pg_cli_table.specs.declared.names.CommandName.TheVariants as name;
ghost use Rattle.pg_cli_parse.specs.Asked.{asked_of};
ghost use Rattle.pg_cli_parse.specs.Entered.{HoldsRows};

use crate::run::few_words;
use clap::ArgMatches;
use pg_cli_table::Request;
use std::alloc::{AllocError, Global};

/// What its arguments ask for, if they name no more than 8 images.
pub(crate) fn asked(alloc: Global, matches: &ArgMatches<'_>) -> Result<Option<Request>, AllocError>
    requires { HoldsRows name.Hybrid (rows_of (found_of matches.now)) }
    ensures asked { IfOk result (λ r. asked_of name.Hybrid (rows_of (found_of matches.now)) ≡ r) }
    // more images are refused, and never for lack of memory
    ensures refused { asked_of name.Hybrid (rows_of (found_of matches.now)) ≡ None → result ≡ Ok None }
{
    match few_words(alloc, matches) {
        Ok(Some(words)) => Ok(Some(Request::Hybrid(words))),
        Ok(None) => Ok(None),
        Err(refused) => Err(refused),
    }
}
