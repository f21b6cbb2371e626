//! What `run` asks for.
//!
//! That there are no more than 8 images is no rule of the line. It is tested here, before a name is copied, so that more
//! are refused however little memory there is.
ghost use Rattle.std.specs.Prelude.{◌≡◌, ◌≤◌, IfOk, None, Ok, Some, codes, length, map};
ghost use Rattle.clap.specs.Words.{found_of, rows_of};
ghost use Rattle.pg_cli_table.specs.Run as spec;
ghost use Rattle.pg_cli_table.specs.declared.names.CommandName.TheVariants as name;
ghost use Rattle.pg_cli_parse.specs.Arguments.{Holds, number_or};
ghost use Rattle.pg_cli_parse.specs.Asked.{asked_of};
ghost use Rattle.pg_cli_parse.specs.Entered.{HoldsRows};
ghost use Rattle.pg_cli_parse.specs.Run.{image_names, run_of, slice_unsaid};

use crate::arguments::{file_name, number_or, texts};
use crate::running::{grant, steps};
use clap::ArgMatches;
use pg_cli_table::{FileName, Images, Request, RunWords, Slice};
use std::alloc::{AllocError, Global};

/// What its arguments ask for, if they name no more than 8 images.
pub(crate) fn asked(alloc: Global, matches: &ArgMatches<'_>) -> Result<Option<Request>, AllocError>
    requires { HoldsRows name.Run (rows_of (found_of matches.now)) }
    ensures asked { IfOk result (λ r. asked_of name.Run (rows_of (found_of matches.now)) ≡ r) }
    // more images are refused, and never for lack of memory
    ensures refused { asked_of name.Run (rows_of (found_of matches.now)) ≡ None → result ≡ Ok None }
{
    match few_words(alloc, matches) {
        Ok(Some(words)) => Ok(Some(Request::Run(words))),
        Ok(None) => Ok(None),
        Err(refused) => Err(refused),
    }
}

/// The words of `run`, and of `hybrid`, if they name no more than 8 images.
pub(crate) fn few_words(
    alloc: Global,
    matches: &ArgMatches<'_>,
) -> Result<Option<RunWords>, AllocError>
    requires { HoldsRows name.Run (rows_of (found_of matches.now)) }
    ensures words { IfOk result (λ w. run_of (rows_of (found_of matches.now)) ≡ w) }
    ensures refused { run_of (rows_of (found_of matches.now)) ≡ None → result ≡ Ok None }
{
    let names = texts(matches, "IMAGE");
    if names.len() > Images::MOST {
        return Ok(None);
    }
    Ok(Some(words(alloc, matches, names)?))
}

/// The words of the command, whose images have these names.
fn words(alloc: Global, matches: &ArgMatches<'_>, names: &[&str]) -> Result<RunWords, AllocError>
    requires held { HoldsRows name.Run (rows_of (found_of matches.now)) }
    requires names { map (λ name. name.now) names.now ≡ image_names (rows_of (found_of matches.now)) }
    requires most { length names.now ≤ 8 }
    ensures { IfOk result (λ w. run_of (rows_of (found_of matches.now)) ≡ Some w) }
{
    let grant = grant(matches);
    let steps = steps(matches);
    let slice = slice(matches);
    let desc = file_name(alloc, matches, "DESC")?;
    let cert = file_name(alloc, matches, "CERT")?;
    let images = images(alloc, names)?;
    Ok(RunWords {
        desc,
        cert,
        images,
        grant,
        steps,
        slice,
    })
}

/// The images of these names.
fn images(alloc: Global, names: &[&str]) -> Result<Images, AllocError>
    requires least { 1 ≤ length names.now }
    requires most { length names.now ≤ 8 }
    ensures { IfOk result (λ images. images ≡ map (λ name. name.now) names.now) }
{
    let mut copies = Vec::with_capacity(alloc, names.len())?;
    for name in names {
        copies.push(FileName::new(String::from_str(alloc, name)?))?;
    }
    Ok(Images::new(copies))
}

/// How many steps a guest does before the next has its turn: the number that the words say, and else 1,000.
fn slice(matches: &ArgMatches<'_>) -> Slice
    requires { Holds spec.slice (rows_of (found_of matches.now)) }
    ensures { number_or (codes "slice") slice_unsaid (rows_of (found_of matches.now)) ≡ result }
{
    Slice::new(number_or(matches, "slice", 1_000))
}
