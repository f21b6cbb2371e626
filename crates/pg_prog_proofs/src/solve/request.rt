//! What the words behind the program's name ask for.

ghost use Rattle.std.specs.Prelude.{◌<◌, ◌^◌};

/// A file, the greatest number of clauses that may be learned, and whether the log is to be checked.
#[derive(Drop)]
pub struct Request<'a> {
    pub file: &'a str,
    pub budget: u32,
    pub check: bool,
    pub ghost few: { budget < 2 ^ 31 },
}

/// What some words ask for, the name of the program before them, if it is right.
pub fn asked_by<'a>(words: &'a [String]) -> Option<Request<'a>> {
    let [_, file, rest @ ..] = words else {
        return None;
    };
    let (rest, check) = match rest {
        [rest @ .., last] if last.as_str() == "--check" => (rest, true),
        _ => (rest, false),
    };
    let budget = match rest {
        [] => i32::MAX as u32,
        [word] => match word.parse::<u32>() {
            Ok(budget) if budget <= i32::MAX as u32 => budget,
            _ => return None,
        },
        _ => return None,
    };
    Some(Request {
        file: file.as_str(),
        budget,
        check,
    })
}
