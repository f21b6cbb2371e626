//! What is wrong with a command line, in words.

ghost use Rattle.std.specs.Prelude.{◌≡◌, ◌↔◌, IfOk, None, is_some, map, string_bytes, true};
ghost use Rattle.pg_cli_parse.specs.Asked.{request_of};

use crate::line::command_line;
use crate::request;
use pg_cli_table::Fault;
use std::alloc::{AllocError, Global};

/// What is wrong with words that the command line does not take; nothing exactly where it takes them. It is one line without its
/// end, in the words of `clap`: which word is not expected, which argument is missing, or why a value is none.
///
/// # Errors
/// Only for lack of memory.
pub fn complaint(alloc: Global, words: &[String]) -> Result<Option<String>, AllocError>
    ensures { IfOk result (λ said. (is_some said ≡ true) ↔ (request_of (map string_bytes words.now) ≡ None)) }
{
    match request(alloc, words) {
        Ok(_) => Ok(None),
        Err(Fault::Memory) => Err(AllocError),
        Err(Fault::Refused) => Ok(Some(said_of(alloc, words)?)),
    }
}

/// What `clap` says of words that are refused; that there are too many images, where it takes them.
fn said_of(alloc: Global, words: &[String]) -> Result<String, AllocError> {
    let command = command_line(alloc)?;
    match command.try_get_matches_from(words) {
        Ok(_) => String::from_str(alloc, "more than 8 images"),
        Err(error) => {
            let whole = format!(in alloc; "{error}")?;
            first_part(alloc, whole.as_str())
        }
    }
}

/// What stands before the first empty line of an error, as one line, without the word that it begins with.
fn first_part(alloc: Global, whole: &str) -> Result<String, AllocError> {
    let mut part = String::new(alloc);
    for line in whole.lines() {
        if line.is_empty() {
            break;
        }
        if !part.as_str().is_empty() {
            part.push_str(" ")?;
        }
        part.push_str(line.strip_prefix("error: ").unwrap_or(line).trim())?;
    }
    Ok(part)
}
