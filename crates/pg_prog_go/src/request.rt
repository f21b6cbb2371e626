//! What the words of the command line ask for.

ghost use Rattle.std.specs.Prelude.{◌≡◌, ◌≤◌, ◌^◌, IfOk, length, true};
ghost use Rattle.pg_run_still.specs.Views.{AreViewsOf};

use pg_cli_table::{FileName, Grant, Images, Slice};
use pg_run_still::{ByteCount, Span, View};
use std::alloc::{AllocError, Global};

/// The most steps that a guest may be asked for, instead of 2^60 for all: eight guests of so many have 2^60.
pub const MOST_STEPS: u64 = 144_115_188_075_855_872;

/// How many steps a guest does in turn where the words do not say it.
const USUAL_SLICE: u64 = 1_000;

/// The most images.
const MOST_IMAGES: usize = 8;

/// The most views.
const MOST_VIEWS: usize = 16;

/// A run of guests, each until it is still.
#[derive(Drop)]
pub struct GoWords {
    /// The name of the file with the machine's description.
    pub desc: FileName,
    /// The name of the file with the certificate that the machine is accepted by.
    pub cert: FileName,
    /// The names of the files with the images, one for each guest.
    pub images: Images,
    /// How many cells are granted to each guest.
    pub grant: Grant,
    /// How many steps each guest does at most.
    pub steps: StepsAtMost,
    /// How many steps a guest does before the next has its turn.
    pub slice: Slice,
    /// What is told of each guest in place of its state, 16 at most; none where its state is told.
    pub views: Vec<View>,
    /// They show cells that each guest has.
    pub ghost within: { AreViewsOf grant views.items },
}

/// A run of a bare machine, until it is still.
#[derive(Drop)]
pub struct BareGoWords {
    /// The name of the file with the machine's description.
    pub desc: FileName,
    /// The name of the file with the image.
    pub image: FileName,
    /// How many cells are granted to the machine.
    pub grant: Grant,
    /// How many steps it does at most.
    pub steps: StepsAtMost,
    /// What is told of it in place of its state, 16 at most; none where its state is told.
    pub views: Vec<View>,
    /// They show cells that it has.
    pub ghost within: { AreViewsOf grant views.items },
}

/// What words ask for.
#[derive(Drop)]
pub enum Asked {
    /// Guests, each until it is still.
    Guests(GoWords),
    /// A bare machine, until it is still.
    Bare(BareGoWords),
}

/// How many steps a guest does at most.
#[derive(Clone, Copy)]
pub struct StepsAtMost {
    /// The number.
    pub count: u64,
    /// Eight guests of so many can be counted.
    pub ghost few: { count ≤ 2 ^ 57 },
}

/// What words have said so far.
#[derive(Drop)]
struct Draft<'a> {
    bare: bool,
    files: Vec<&'a str>,
    grant: Option<Grant>,
    steps: Option<StepsAtMost>,
    slice: Option<Slice>,
    views: Vec<View>,
}

/// Why words are not taken.
enum Untaken {
    /// They are none that the program takes.
    Words,
    /// Memory was refused.
    Memory,
}

impl From<AllocError> for Untaken {
    fn from(_error: AllocError) -> Untaken {
        Untaken::Memory
    }
}

/// What the words ask for, the program's name first; none where they are others.
pub fn asked_by(alloc: Global, words: &[String]) -> Result<Option<Asked>, AllocError> {
    match words_of(alloc, words) {
        Ok(asked) => Ok(Some(asked)),
        Err(Untaken::Words) => Ok(None),
        Err(Untaken::Memory) => Err(AllocError),
    }
}

/// The words, taken one by one, and then the files.
fn words_of(alloc: Global, words: &[String]) -> Result<Asked, Untaken> {
    let mut draft = Draft {
        bare: false,
        files: Vec::new(alloc),
        grant: None,
        steps: None,
        slice: None,
        views: Vec::new(alloc),
    };
    let [_, words @ ..] = words else {
        return Err(Untaken::Words);
    };
    let mut left = words;
    while let [word, behind @ ..] = left {
        left = draft.take(word.as_str(), behind)?;
    }
    if draft.bare {
        Ok(Asked::Bare(bare_words(alloc, draft)?))
    } else {
        Ok(Asked::Guests(go_words(alloc, draft)?))
    }
}

/// The bare machine that a draft asks for, where nothing is left out. It has no slice.
fn bare_words(alloc: Global, draft: Draft<'_>) -> Result<BareGoWords, Untaken> {
    let Draft {
        files,
        grant,
        steps,
        slice,
        views,
        ..
    } = draft;
    let grant = match grant {
        Some(grant) => grant,
        None => return Err(Untaken::Words),
    };
    if slice.is_some() || !are_within(views.as_slice(), grant.cells()) {
        return Err(Untaken::Words);
    }
    let [desc, image] = files.as_slice() else {
        return Err(Untaken::Words);
    };
    Ok(BareGoWords {
        desc: file_name(alloc, desc)?,
        image: file_name(alloc, image)?,
        grant,
        steps: steps_or_most(steps),
        views,
    })
}

/// The guests that a draft asks for, where nothing is left out.
fn go_words(alloc: Global, draft: Draft<'_>) -> Result<GoWords, Untaken> {
    let Draft {
        files,
        grant,
        steps,
        slice,
        views,
        ..
    } = draft;
    let grant = match grant {
        Some(grant) => grant,
        None => return Err(Untaken::Words),
    };
    if !are_within(views.as_slice(), grant.cells()) {
        return Err(Untaken::Words);
    }
    let [desc, cert, images @ ..] = files.as_slice() else {
        return Err(Untaken::Words);
    };
    if images.is_empty() || images.len() > MOST_IMAGES {
        return Err(Untaken::Words);
    }
    Ok(GoWords {
        desc: file_name(alloc, desc)?,
        cert: file_name(alloc, cert)?,
        images: images_of(alloc, images)?,
        grant,
        steps: steps_or_most(steps),
        slice: slice_or_usual(slice),
        views,
    })
}

/// How many steps a guest does at most, where words may have said it.
fn steps_or_most(steps: Option<StepsAtMost>) -> StepsAtMost {
    match steps {
        Some(steps) => steps,
        None => StepsAtMost { count: MOST_STEPS },
    }
}

/// The slice, where words may have said it.
fn slice_or_usual(slice: Option<Slice>) -> Slice {
    match slice {
        Some(slice) => slice,
        None => Slice::new(USUAL_SLICE),
    }
}

/// Whether views show no cells but the first ones, so many.
fn are_within(views: &[View], cells: u32) -> bool
    ensures { result ≡ true → AreViewsOf cells views.now }
{
    for view in views {
        if view.end() > cells {
            return false;
        }
    }
    true
}

/// The images of these names.
fn images_of(alloc: Global, names: &[&str]) -> Result<Images, AllocError>
    requires least { 1 ≤ length names.now }
    requires most { length names.now ≤ 8 }
{
    let mut copies = Vec::with_capacity(alloc, names.len())?;
    for name in names {
        copies.push(file_name(alloc, name)?)?;
    }
    Ok(Images::new(copies))
}

/// The name of a file.
fn file_name(alloc: Global, name: &str) -> Result<FileName, AllocError> {
    Ok(FileName::new(String::from_str(alloc, name)?))
}

impl<'a> Draft<'a> {
    /// Takes a word, and behind the name of an option its value, where it has one; what is left.
    fn take(&mut self, word: &'a str, behind: &'a [String]) -> Result<&'a [String], Untaken>
        ensures { IfOk result (λ left. length left.now ≤ length behind.now) }
    {
        if !word.starts_with('-') {
            self.take_file(word)?;
            return Ok(behind);
        }
        if word == "--bare" && !self.bare {
            self.bare = true;
            return Ok(behind);
        }
        let [value, behind @ ..] = behind else {
            return Err(Untaken::Words);
        };
        self.take_option(word, value.as_str())?;
        Ok(behind)
    }

    /// Takes the name of a file.
    fn take_file(&mut self, name: &'a str) -> Result<(), AllocError> {
        self.files.push(name)?;
        Ok(())
    }

    /// Takes an option with its value.
    fn take_option(&mut self, name: &str, value: &str) -> Result<(), Untaken> {
        match name {
            "--grant" if self.grant.is_none() => self.grant = Some(grant_of(value)?),
            "--steps" if self.steps.is_none() => self.steps = Some(steps_of(value)?),
            "--slice" if self.slice.is_none() => self.slice = Some(slice_of(value)?),
            "--show" => self.take_view(View::Cells(span_of(value)?))?,
            "--text" => self.take_view(text_of(value)?)?,
            _ => return Err(Untaken::Words),
        }
        Ok(())
    }

    /// Takes a view, unless it is one too many.
    fn take_view(&mut self, view: View) -> Result<(), Untaken> {
        if self.views.len() >= MOST_VIEWS {
            return Err(Untaken::Words);
        }
        match self.views.push(view) {
            Ok(()) => Ok(()),
            Err(_) => Err(Untaken::Memory),
        }
    }
}

/// The grant of a number, 2 to 1,048,575.
fn grant_of(word: &str) -> Result<Grant, Untaken> {
    match word.parse::<u32>() {
        Ok(cells) if (2..=1_048_575).contains(&cells) => Ok(Grant::new(cells)),
        _ => Err(Untaken::Words),
    }
}

/// So many steps, 0 to `MOST_STEPS`.
fn steps_of(word: &str) -> Result<StepsAtMost, Untaken> {
    match word.parse::<u64>() {
        Ok(count) if count <= MOST_STEPS => Ok(StepsAtMost { count }),
        _ => Err(Untaken::Words),
    }
}

/// The slice of a number, 1 to 1,000,000.
fn slice_of(word: &str) -> Result<Slice, Untaken> {
    match word.parse::<u64>() {
        Ok(steps) if (1..=1_000_000).contains(&steps) => Ok(Slice::new(steps)),
        _ => Err(Untaken::Words),
    }
}

/// The cells of two addresses, `A..B`: those from the first on, up to the second, which is greater.
fn span_of(word: &str) -> Result<Span, Untaken> {
    let (from, to) = match word.split_once("..") {
        Some(parts) => parts,
        None => return Err(Untaken::Words),
    };
    match (from.parse::<u32>(), to.parse::<u32>()) {
        (Ok(from), Ok(to)) if from < to => Ok(Span { from, to }),
        _ => Err(Untaken::Words),
    }
}

/// The text of cells, `A..B`, of a byte of each; or `A..B:BITS`, of so many bits of each.
fn text_of(word: &str) -> Result<View, Untaken> {
    match word.split_once(':') {
        None => Ok(View::Bytes(span_of(word)?, ByteCount { count: 1 })),
        Some((cells, bits)) => Ok(View::Bytes(span_of(cells)?, bytes_in(bits)?)),
    }
}

/// The bytes of a number of bits: 8, 16, 24, 32, 40, 48, 56 or 64.
fn bytes_in(word: &str) -> Result<ByteCount, Untaken> {
    match word.parse::<u32>() {
        Ok(bits) if (8..=64).contains(&bits) => match bits % 8 {
            0 => Ok(ByteCount { count: bits / 8 }),
            _ => Err(Untaken::Words),
        },
        _ => Err(Untaken::Words),
    }
}
