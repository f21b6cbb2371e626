//! What the words of the command line ask for.

ghost use Rattle.std.specs.Prelude.{◌≤◌, length, IfSome};

use pg_cli_table::{BareWords, FileName, Grant, Steps};
use pg_out_steps::Shows;
use pg_prog_base::files::file_name;
use std::alloc::{AllocError, Global};

/// A run that is to be shown.
#[derive(Drop)]
pub struct TraceWords {
    /// The run, as `pgv bare` is asked for it.
    pub bare: BareWords,
    /// What ends the run before all its steps, where the words name it.
    pub until: Option<Until>,
    /// Which steps have a line.
    pub shows: Shows,
    /// The name of the file with the certificate of the machine, where the words name one.
    pub cert: Option<FileName>,
    /// As what the run is written.
    pub form: Written,
}

/// As what a run is written.
#[derive(Clone, Copy, Debug, PartialEq, Eq)]
pub enum Written {
    /// As text.
    Text,
    /// As JSON.
    Json,
    /// As a value change dump.
    Vcd,
}

/// What ends a run: it ends behind the first number of steps at which this holds.
#[derive(Clone, Copy, Debug, PartialEq, Eq)]
pub enum Until {
    /// The next step leaves the state as it is, and so does every later one.
    Still,
    /// The last step trapped.
    Trap,
    /// P is this address, 0 to 1,048,575.
    At(u32),
}

/// What words have said so far.
#[derive(Drop)]
struct Draft<'a> {
    desc: Option<&'a str>,
    image: Option<&'a str>,
    grant: Option<Grant>,
    steps: Option<Steps>,
    until: Option<Until>,
    cert: Option<&'a str>,
    only_traps: bool,
    counts: bool,
    form: Option<Written>,
}

/// What the words ask for, the program's name first; none where they are others.
pub fn asked_by(alloc: Global, words: &[String]) -> Result<Option<TraceWords>, AllocError> {
    match draft_of(words) {
        Some(draft) => whole(alloc, draft),
        None => Ok(None),
    }
}

/// What a draft asks for, where nothing is left out. JSON and dumps are of all steps.
fn whole(alloc: Global, draft: Draft<'_>) -> Result<Option<TraceWords>, AllocError> {
    if draft.form.is_some() && (draft.counts || draft.only_traps) {
        return Ok(None);
    }
    let shows = match (draft.counts, draft.only_traps) {
        (true, _) => Shows::Counts,
        (false, true) => Shows::Traps,
        (false, false) => Shows::Steps,
    };
    match (draft.desc, draft.image, draft.grant, draft.steps) {
        (Some(desc), Some(image), Some(grant), Some(steps)) => Ok(Some(TraceWords {
            bare: BareWords {
                desc: file_name(alloc, desc)?,
                image: file_name(alloc, image)?,
                grant,
                steps,
            },
            until: draft.until,
            shows,
            cert: match draft.cert {
                Some(cert) => Some(file_name(alloc, cert)?),
                None => None,
            },
            form: draft.form.unwrap_or(Written::Text),
        })),
        _ => Ok(None),
    }
}

/// What the words say, each thing once.
fn draft_of(words: &[String]) -> Option<Draft<'_>> {
    let [_, words @ ..] = words else {
        return None;
    };
    let mut draft = Draft {
        desc: None,
        image: None,
        grant: None,
        steps: None,
        until: None,
        cert: None,
        only_traps: false,
        counts: false,
        form: None,
    };
    let mut left = words;
    while let [word, behind @ ..] = left {
        left = draft.take(word.as_str(), behind)?;
    }
    Some(draft)
}

impl<'a> Draft<'a> {
    /// Takes a word, and where it wants one the word behind it; what is left. None where it is not taken.
    fn take(&mut self, word: &'a str, behind: &'a [String]) -> Option<&'a [String]>
        ensures { IfSome result (λ left. length left.now ≤ length behind.now) }
    {
        match word {
            "--grant" | "--steps" | "--until" | "--cert" => {
                let [value, behind @ ..] = behind else {
                    return None;
                };
                self.take_value(word, value.as_str())?;
                Some(behind)
            }
            _ => {
                self.take_alone(word)?;
                Some(behind)
            }
        }
    }

    /// Takes an option with its value. None where it was given before, or has no such value.
    fn take_value(&mut self, option: &str, value: &'a str) -> Option<()> {
        match option {
            "--grant" if self.grant.is_none() => self.grant = Some(grant_of(value)?),
            "--steps" if self.steps.is_none() => self.steps = Some(steps_of(value)?),
            "--until" if self.until.is_none() => self.until = Some(until_of(value)?),
            "--cert" if self.cert.is_none() => self.cert = Some(value),
            _ => return None,
        }
        Some(())
    }

    /// Takes an option without a value, or the name of a file. None where it is not taken.
    fn take_alone(&mut self, word: &'a str) -> Option<()> {
        match word {
            "--only-traps" if !self.only_traps => self.only_traps = true,
            "--counts" if !self.counts => self.counts = true,
            "--json" if self.form.is_none() => self.form = Some(Written::Json),
            "--vcd" if self.form.is_none() => self.form = Some(Written::Vcd),
            _ => return self.take_file(word),
        }
        Some(())
    }

    /// Takes the name of a file: the description's first. None where it begins as an option does, or is one too many.
    fn take_file(&mut self, name: &'a str) -> Option<()> {
        if name.starts_with('-') {
            return None;
        }
        match (self.desc, self.image) {
            (None, _) => self.desc = Some(name),
            (Some(_), None) => self.image = Some(name),
            (Some(_), Some(_)) => return None,
        }
        Some(())
    }
}

/// The grant of a number, 2 to 1,048,575.
fn grant_of(word: &str) -> Option<Grant> {
    match word.parse::<u32>() {
        Ok(cells) if (2..=1_048_575).contains(&cells) => Some(Grant::new(cells)),
        _ => None,
    }
}

/// So many steps, 0 to 1,000,000.
fn steps_of(word: &str) -> Option<Steps> {
    match word.parse::<u64>() {
        Ok(count) if count <= 1_000_000 => Some(Steps::new(count)),
        _ => None,
    }
}

/// What ends a run, by its word: `still`, `trap`, or `P=A` with A from 0 to 1,048,575.
fn until_of(word: &str) -> Option<Until> {
    match word {
        "still" => Some(Until::Still),
        "trap" => Some(Until::Trap),
        _ => match word.strip_prefix("P=")?.parse::<u32>() {
            Ok(p) if p <= 1_048_575 => Some(Until::At(p)),
            _ => None,
        },
    }
}
