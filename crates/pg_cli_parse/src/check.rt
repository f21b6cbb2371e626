//! What `check` asks for, and the words of either command that finds and saves a certificate.
ghost use Rattle.std.specs.Prelude.{◌≡◌, IfOk, Some, codes};
ghost use Rattle.clap.specs.Words.{found_of, rows_of};
ghost use Rattle.pg_cli_table.specs.Check as spec;
ghost use Rattle.pg_cli_table.specs.declared.names.CommandName.TheVariants as name;
ghost use Rattle.pg_cli_parse.specs.Arguments.{Holds, number_or};
ghost use Rattle.pg_cli_parse.specs.Asked.{asked_of};
ghost use Rattle.pg_cli_parse.specs.Check.{budget_unsaid, check_of};
ghost use Rattle.pg_cli_parse.specs.Entered.{HoldsRows};

use crate::arguments::{file_name, number_or};
use clap::ArgMatches;
use pg_cli_table::{Budget, CheckWords, Request};
use std::alloc::{AllocError, Global};

/// What its arguments ask for.
pub(crate) fn asked(alloc: Global, matches: &ArgMatches<'_>) -> Result<Option<Request>, AllocError>
    requires { HoldsRows name.Check (rows_of (found_of matches.now)) }
    ensures { IfOk result (λ r. asked_of name.Check (rows_of (found_of matches.now)) ≡ r) }
{
    Ok(Some(Request::Check(words(alloc, matches)?)))
}

/// The words of `check`, and of `hcheck`.
pub(crate) fn words(alloc: Global, matches: &ArgMatches<'_>) -> Result<CheckWords, AllocError>
    requires { HoldsRows name.Check (rows_of (found_of matches.now)) }
    ensures { IfOk result (λ w. check_of (rows_of (found_of matches.now)) ≡ Some w) }
{
    let budget = budget(matches);
    let desc = file_name(alloc, matches, "DESC")?;
    let cert = file_name(alloc, matches, "cert")?;
    Ok(CheckWords { desc, cert, budget })
}

/// How many clauses the solver may learn for a question: the number that the words say, and else 20,000.
fn budget(matches: &ArgMatches<'_>) -> Budget
    requires { Holds spec.budget (rows_of (found_of matches.now)) }
    ensures { number_or (codes "budget") budget_unsaid (rows_of (found_of matches.now)) ≡ result }
{
    Budget::new(number_or(matches, "budget", 20_000) as u32)
}
