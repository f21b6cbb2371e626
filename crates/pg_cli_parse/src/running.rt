//! What the arguments of commands that run images give: how many cells are granted, and how many steps are done.
ghost use Rattle.std.specs.Prelude.{◌≡◌, Some, codes, option_map};
ghost use Rattle.clap.specs.Words.{found_of, one_of, rows_of};
ghost use Rattle.pg_cli_table.specs.Running as spec;
ghost use Rattle.pg_cli_parse.specs.Arguments.{Holds, number_of};

use crate::arguments::number;
use clap::ArgMatches;
use pg_cli_table::{Grant, Steps};

/// How many cells are granted, to a machine or to a guest.
pub(crate) fn grant(matches: &ArgMatches<'_>) -> Grant
    requires { Holds spec.grant (rows_of (found_of matches.now)) }
    ensures { option_map number_of (one_of (codes "grant") (rows_of (found_of matches.now))) ≡ Some result }
{
    Grant::new(number(matches, "grant") as u32)
}

/// How many steps are done, exactly.
pub(crate) fn steps(matches: &ArgMatches<'_>) -> Steps
    requires { Holds spec.steps (rows_of (found_of matches.now)) }
    ensures { option_map number_of (one_of (codes "steps") (rows_of (found_of matches.now))) ≡ Some result }
{
    Steps::new(number(matches, "steps"))
}
