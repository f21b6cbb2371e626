//! What `gen` asks for.
ghost use Rattle.std.specs.Prelude.{◌≡◌, IfOk, Some, codes, option_map};
ghost use Rattle.clap.specs.Words.{found_of, one_of, rows_of};
ghost use Rattle.pg_cli_table.specs.Generating as spec;
ghost use Rattle.pg_cli_table.specs.declared.names.CommandName.TheVariants as name;
ghost use Rattle.pg_cli_parse.specs.Arguments.{Holds, number_of};
ghost use Rattle.pg_cli_parse.specs.Asked.{asked_of};
ghost use Rattle.pg_cli_parse.specs.Entered.{HoldsRows};

use crate::arguments::{file_name, number};
use clap::ArgMatches;
use pg_cli_table::{Count, GenWords, Request};
use std::alloc::{AllocError, Global};

/// What its arguments ask for.
pub(crate) fn asked(alloc: Global, matches: &ArgMatches<'_>) -> Result<Option<Request>, AllocError>
    requires { HoldsRows name.Gen (rows_of (found_of matches.now)) }
    ensures { IfOk result (λ r. asked_of name.Gen (rows_of (found_of matches.now)) ≡ r) }
{
    let number = number(matches, "NUMBER");
    let count = count(matches);
    let cert = file_name(alloc, matches, "cert")?;
    Ok(Some(Request::Gen(GenWords {
        number,
        count,
        cert,
    })))
}

/// How many instructions the description has.
fn count(matches: &ArgMatches<'_>) -> Count
    requires { Holds spec.size (rows_of (found_of matches.now)) }
    ensures { option_map number_of (one_of (codes "SIZE") (rows_of (found_of matches.now))) ≡ Some result }
{
    Count::new(number(matches, "SIZE") as u32)
}
