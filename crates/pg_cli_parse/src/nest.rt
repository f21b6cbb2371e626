//! What `nest` asks for.
ghost use Rattle.std.specs.Prelude.{◌≡◌, IfOk, Some, codes, option_map};
ghost use Rattle.clap.specs.Words.{found_of, one_of, rows_of};
ghost use Rattle.pg_cli_table.specs.Nest as spec;
ghost use Rattle.pg_cli_table.specs.declared.names.CommandName.TheVariants as name;
ghost use Rattle.pg_cli_parse.specs.Arguments.{Holds, number_of};
ghost use Rattle.pg_cli_parse.specs.Asked.{asked_of};
ghost use Rattle.pg_cli_parse.specs.Entered.{HoldsRows};

use crate::arguments::{file_name, number};
use crate::running::{grant, steps};
use clap::ArgMatches;
use pg_cli_table::{Depth, NestWords, Request};
use std::alloc::{AllocError, Global};

/// What its arguments ask for.
pub(crate) fn asked(alloc: Global, matches: &ArgMatches<'_>) -> Result<Option<Request>, AllocError>
    requires { HoldsRows name.Nest (rows_of (found_of matches.now)) }
    ensures { IfOk result (λ r. asked_of name.Nest (rows_of (found_of matches.now)) ≡ r) }
{
    let grant = grant(matches);
    let steps = steps(matches);
    let depth = depth(matches);
    let desc = file_name(alloc, matches, "DESC")?;
    let cert = file_name(alloc, matches, "CERT")?;
    let image = file_name(alloc, matches, "IMAGE")?;
    Ok(Some(Request::Nest(NestWords {
        desc,
        cert,
        image,
        grant,
        steps,
        depth,
    })))
}

/// How many monitors there are.
fn depth(matches: &ArgMatches<'_>) -> Depth
    requires { Holds spec.depth (rows_of (found_of matches.now)) }
    ensures { option_map number_of (one_of (codes "depth") (rows_of (found_of matches.now))) ≡ Some result }
{
    Depth::new(number(matches, "depth") as u32)
}
