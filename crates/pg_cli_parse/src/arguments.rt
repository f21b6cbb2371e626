//! The arguments that commands are made of: how `clap` is told of one, and how its value is read.
//!
//! A parse that succeeds has given each argument that has to be there a value, and each number passed its range. What is
//! read here requires that of the matches, and takes the values without a test.
ghost use Rattle.std.specs.Prelude.{◌≡◌, ◌≤◌, ◌⊎◌, IfOk, None, Some, false, map, option_map, string_bytes};
ghost use Rattle.clap.specs.Words.{first_of, found_of, one_of, rows_of, rule_of};
ghost use Rattle.pg_cli_table.specs.Synopses.{argument_of};
ghost use Rattle.pg_cli_parse.specs.Arguments as spec;
ghost use Rattle.pg_cli_parse.specs.Arguments.{HasText, HasTexts, IsNumber, MayBeNumber, number_of, number_or, texts_of};

use clap::builder::ValueParser;
use clap::{Arg, ArgMatches};
use pg_cli_table::{Argument, FileName, Range};
use std::alloc::{AllocError, Global};

/// The argument as `clap` is told of it.
pub(crate) fn rule<'a>(alloc: Global, argument: Argument) -> Arg<'a>
    ensures rule { rule_of result ≡ spec.rule (argument_of argument) }
    ensures local { result.global ≡ false }
{
    match argument {
        Argument::File(name) => place(alloc, name),
        Argument::Files(name) => place(alloc, name).num_args(1..),
        Argument::Number(name, range) => place(alloc, name).value_parser(numbers(range)),
        Argument::FileOption(name, _) => option(alloc, name).required(true),
        Argument::NumberOption(name, _, range) => option(alloc, name)
            .required(true)
            .value_parser(numbers(range)),
        Argument::OptionalNumber(name, _, range) => {
            option(alloc, name).value_parser(numbers(range))
        }
    }
}

/// A text in its place, which has to be there.
fn place<'a>(alloc: Global, name: &'a str) -> Arg<'a>
    ensures rule { rule_of result ≡ spec.place name.entry.now }
    ensures local { result.global ≡ false }
{
    Arg::new(alloc, name).required(true)
}

/// A text after `--name`.
fn option<'a>(alloc: Global, name: &'a str) -> Arg<'a>
    ensures rule { rule_of result ≡ spec.option name.entry.now }
    ensures local { result.global ≡ false }
{
    Arg::new(alloc, name).long(name)
}

/// The parser of the numbers of a range.
fn numbers<'a>(range: Range) -> ValueParser<'a>
    ensures { result ≡ spec.numbers range }
{
    ValueParser::Unsigned(range.least, range.most)
}

/// The name of a file that an argument gives.
pub(crate) fn file_name(
    alloc: Global,
    matches: &ArgMatches<'_>,
    id: &str,
) -> Result<FileName, AllocError>
    requires { HasText id.now (rows_of (found_of matches.now)) }
    ensures { IfOk result (λ name. first_of id.now (rows_of (found_of matches.now)) ≡ Some name) }
{
    Ok(FileName::new(text(alloc, matches, id)?))
}

/// The text of an argument.
fn text(alloc: Global, matches: &ArgMatches<'_>, id: &str) -> Result<String, AllocError>
    requires { HasText id.now (rows_of (found_of matches.now)) }
    ensures { IfOk result (λ s. first_of id.now (rows_of (found_of matches.now)) ≡ Some (string_bytes s)) }
{
    String::from_str(alloc, matches.get_str(id).unwrap())
}

/// All the texts of an argument, as they stand among the words.
pub(crate) fn texts<'m>(matches: &'m ArgMatches<'_>, id: &str) -> &'m [&'m str]
    requires { HasTexts id.now (rows_of (found_of matches.now)) }
    ensures { map (λ text. text.now) result.now ≡ texts_of id.now (rows_of (found_of matches.now)) }
{
    matches.get_strs(id).unwrap()
}

/// The number of an argument that has to be there.
pub(crate) fn number(matches: &ArgMatches<'_>, id: &str) -> u64
    requires { IsNumber id.now (rows_of (found_of matches.now)) }
    ensures { option_map number_of (one_of id.now (rows_of (found_of matches.now))) ≡ Some result }
{
    matches.get_one::<u64>(id).unwrap()
}

/// The number of an argument, and the other where the words do not say it.
pub(crate) fn number_or(matches: &ArgMatches<'_>, id: &str, other: u64) -> u64
    requires { MayBeNumber id.now (rows_of (found_of matches.now)) }
    ensures { number_or id.now other (rows_of (found_of matches.now)) ≡ result }
{
    matches.get_one::<u64>(id).unwrap_or(other)
}
