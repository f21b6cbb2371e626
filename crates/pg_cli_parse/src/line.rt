//! The whole command line, made of the table of commands.
ghost use Rattle.std.specs.Prelude.{◌≡◌, IfOk, [], false, true};
ghost use Rattle.clap.specs.Words.{app_of};
ghost use Rattle.clap.specs.declared.builder.command.Command.TheViews.{out-Command};
ghost use Rattle.pg_cli_table.specs.Synopses.{synopsis_of};
ghost use Rattle.pg_cli_parse.specs.Line as spec;
ghost use Rattle.pg_cli_parse.specs.Line.{line, shape};

use crate::arguments::rule;
use clap::Command;
use pg_cli_table::{Synopsis, commands};
use std::alloc::{AllocError, Global};

/// The whole command line, as `clap` builds it: a row of the table after another.
pub(crate) fn command_line<'a>(alloc: Global) -> Result<Command<'a>, AllocError>
    ensures { IfOk result (λ c. app_of c ≡ line) }
{
    let mut whole = program(alloc);
    for command in commands() {
        let next = subcommand(alloc, command.synopsis())?;
        whole = whole.subcommand(next)?;
    }
    Ok(whole)
}

/// The program without a command: one has to be named, and there is no word for help or the version.
fn program<'a>(alloc: Global) -> Command<'a>
    ensures { app_of result ≡ record { top = record spec.program { is_leaf = true }; subs = [] } }
{
    Command::new(alloc, "pgv")
        .disable_help_flag(true)
        .disable_help_subcommand(true)
        .disable_version_flag(true)
        .subcommand_required(true)
}

/// A command with its arguments.
fn subcommand<'a>(alloc: Global, synopsis: Synopsis) -> Result<Command<'a>, AllocError>
    ensures app { IfOk result (λ c. app_of c ≡ record { top = shape (synopsis_of synopsis); subs = [] }) }
    ensures local { IfOk result (λ c. (out-Command c).has_globals ≡ false) }
{
    let mut command = Command::new(alloc, synopsis.name);
    for argument in synopsis.arguments {
        command = command.arg(rule(alloc, *argument))?;
    }
    Ok(command)
}
