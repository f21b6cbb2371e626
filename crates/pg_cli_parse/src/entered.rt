//! The command that a parse entered, and what it asks for.
ghost use Rattle.std.specs.Prelude.{◌≡◌, IfOk};
ghost use Rattle.clap.specs.Words.{found_of, rows_of, subcommand_rows_of};
ghost use Rattle.pg_cli_parse.specs.Asked.{asked_of, named_as};
ghost use Rattle.pg_cli_parse.specs.Entered.{HoldsCommand, HoldsRows};

use crate::{
    asm, bare, check, disasm, generating, hcheck, hybrid, migrate, nest, print, replay, resume,
    run, save, verify,
};
use clap::ArgMatches;
use pg_cli_table::{CommandName, Request};
use std::alloc::{AllocError, Global};

/// What the command that was named asks for, if the program does not refuse its arguments.
pub(crate) fn asked(alloc: Global, matches: &ArgMatches<'_>) -> Result<Option<Request>, AllocError>
    requires { HoldsCommand (subcommand_rows_of matches.now) }
    ensures { IfOk result (λ r. named_as (subcommand_rows_of matches.now) ≡ r) }
{
    let entered = matches.subcommand().unwrap();
    let command = CommandName::named(entered.0).unwrap();
    asked_of(alloc, command, entered.1)
}

/// What this command asks for, by the values of its arguments.
fn asked_of(
    alloc: Global,
    command: CommandName,
    matches: &ArgMatches<'_>,
) -> Result<Option<Request>, AllocError>
    requires { HoldsRows command (rows_of (found_of matches.now)) }
    ensures { IfOk result (λ r. asked_of command (rows_of (found_of matches.now)) ≡ r) }
{
    match command {
        CommandName::Bare => bare::asked(alloc, matches),
        CommandName::Check => check::asked(alloc, matches),
        CommandName::Verify => verify::asked(alloc, matches),
        CommandName::Replay => replay::asked(alloc, matches),
        CommandName::Run => run::asked(alloc, matches),
        CommandName::Print => print::asked(alloc, matches),
        CommandName::Gen => generating::asked(alloc, matches),
        CommandName::Migrate => migrate::asked(alloc, matches),
        CommandName::Hcheck => hcheck::asked(alloc, matches),
        CommandName::Hybrid => hybrid::asked(alloc, matches),
        CommandName::Nest => nest::asked(alloc, matches),
        CommandName::Asm => asm::asked(alloc, matches),
        CommandName::Disasm => disasm::asked(alloc, matches),
        CommandName::Save => save::asked(alloc, matches),
        CommandName::Resume => resume::asked(alloc, matches),
    }
}
