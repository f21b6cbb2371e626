//! What the words of the command line ask for.

ghost use Rattle.std.specs.Prelude.{◌≤◌, length, IfSome};

use pg_cert::reading::kind;
use pg_cli_table::Budget;
use pg_type::Kind;

/// How many clauses may be learned for a question, where the words do not say it.
const BUDGET: u32 = 20_000;

/// The most clauses that may be learned.
const MOST_BUDGET: u32 = 1_000_000;

/// Why a machine is refused, asked of files.
#[derive(Drop)]
pub struct Request<'a> {
    /// The name of the description's file.
    pub desc: &'a str,
    /// The name of the certificate's file.
    pub cert: &'a str,
    /// The name of an instruction, where that alone is asked for.
    pub instr: Option<&'a str>,
    /// A kind of it, where that alone is asked for.
    pub kind: Option<Kind>,
    /// Whether all is asked for as JSON.
    pub is_json: bool,
    /// What the options say.
    pub options: Options<'a>,
}

/// What the options say.
#[derive(Drop)]
pub struct Options<'a> {
    /// The name of the file for the mended description, where it is to be saved.
    pub mend: Option<&'a str>,
    /// Whether states that are laid out for a reader are told too.
    pub is_readable: bool,
    /// How many clauses may be learned for a question, where it is said.
    budget: Option<Budget>,
}

impl<'a> Options<'a> {
    /// How many clauses may be learned for a question.
    pub fn budget(&self) -> u32
        ensures least { 1 ≤ result }
        ensures most { result ≤ 1000000 }
    {
        match &self.budget {
            None => BUDGET,
            Some(budget) => budget.clauses(),
        }
    }

    /// Takes an option, and where it wants a word the one behind it; what is left. None where it is not taken, or was taken before.
    fn take(&mut self, word: &'a str, behind: &'a [String]) -> Option<&'a [String]>
        ensures { IfSome result (λ left. length left.now ≤ length behind.now) }
    {
        match word {
            "--mend" if self.mend.is_none() => {
                let [name, behind @ ..] = behind else {
                    return None;
                };
                self.mend = Some(name.as_str());
                Some(behind)
            }
            "--budget" if self.budget.is_none() => {
                let [number, behind @ ..] = behind else {
                    return None;
                };
                self.budget = Some(budget_of(number.as_str())?);
                Some(behind)
            }
            "--readable" if !self.is_readable => {
                self.is_readable = true;
                Some(behind)
            }
            _ => None,
        }
    }
}

/// The request of the words, the program's name first: `DESC CERT [INSTR [KIND]]` or `DESC CERT --json`, with `--budget K`,
/// `--mend FILE` and `--readable` behind them in any order, each once at most. None where they are others.
pub fn asked_by(words: &[String]) -> Option<Request<'_>> {
    let [_, desc, cert, words @ ..] = words else {
        return None;
    };
    let (is_json, words) = json_named(words);
    let (instr, words) = instr_named(is_json, words);
    let (kind, words) = kind_named(instr.is_some(), words)?;
    Some(Request {
        desc: desc.as_str(),
        cert: cert.as_str(),
        instr,
        kind,
        is_json,
        options: options_of(words)?,
    })
}

/// Whether the first word asks for JSON, and the words behind it; else all of them.
fn json_named(words: &[String]) -> (bool, &[String]) {
    match words {
        [word, behind @ ..] if word.as_str() == "--json" => (true, behind),
        _ => (false, words),
    }
}

/// The instruction that the first word names, where none is asked for as JSON, and the words behind it.
fn instr_named(is_json: bool, words: &[String]) -> (Option<&str>, &[String]) {
    if is_json { (None, words) } else { named(words) }
}

/// The first word, where it is no option, and the words behind it; else no word, and all of them.
fn named(words: &[String]) -> (Option<&str>, &[String]) {
    match words {
        [word, behind @ ..] if !word.as_str().starts_with('-') => (Some(word.as_str()), behind),
        _ => (None, words),
    }
}

/// The kind that the first word names, where one may stand there and it is no option, and the words behind it. None where it names
/// no kind.
fn kind_named(may_stand: bool, words: &[String]) -> Option<(Option<Kind>, &[String])> {
    if !may_stand {
        return Some((None, words));
    }
    match named(words) {
        (None, words) => Some((None, words)),
        (Some(word), behind) => Some((Some(kind(word.as_bytes())?), behind)),
    }
}

/// What the words of options say. None where they are others.
fn options_of(words: &[String]) -> Option<Options<'_>> {
    let mut options = Options {
        mend: None,
        is_readable: false,
        budget: None,
    };
    let mut left = words;
    while let [word, behind @ ..] = left {
        left = options.take(word.as_str(), behind)?;
    }
    Some(options)
}

/// The budget that a word says, from 1 to 1,000,000.
fn budget_of(word: &str) -> Option<Budget> {
    match word.parse::<u32>() {
        Ok(clauses) if 1 <= clauses && clauses <= MOST_BUDGET => Some(Budget::new(clauses)),
        _ => None,
    }
}
