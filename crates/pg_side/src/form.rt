//! How a program takes its words, as plain data, and the parts of such words.

ghost use Rattle.std.specs.Prelude.{◌<◌, length, IfSome};

/// What stands behind the name of an option.
#[derive(Clone, Copy)]
pub enum Value {
    /// Nothing.
    Nothing,
    /// The name of a file.
    File,
    /// A number from the first to the second.
    Number(u64, u64),
    /// When a run ends: `still`, `trap` or `P=A`, A an address.
    End,
    /// Cells of a guest: `A..B`, from the address A on up to B.
    Cells,
    /// The same, or `A..B:BITS`, BITS a multiple of 8 up to 64.
    Bytes,
}

/// How often an option may stand among the words.
#[derive(Clone, Copy, PartialEq, Eq)]
pub enum Times {
    /// Once, and it has to be there.
    Once,
    /// Once, or not at all.
    AtMostOnce,
    /// As often as one likes.
    Often,
}

/// An option.
#[derive(Clone, Copy)]
pub struct OptionForm {
    /// Its name.
    pub name: &'static str,
    /// How it is written, with what stands behind it.
    pub shown: &'static str,
    /// What stands behind it.
    pub value: Value,
    /// How often it may stand there.
    pub times: Times,
    /// The names of those beside which it may not stand.
    pub against: &'static [&'static str],
}

/// How a program takes its words: those in places, in order, of which so many have to be there, and its options.
#[derive(Clone, Copy)]
pub struct Form {
    pub places: &'static [&'static str],
    pub least: usize,
    pub options: &'static [OptionForm],
}

/// A word, or an option with the word behind it.
#[derive(Clone, Copy)]
pub enum Part<'a> {
    /// A word in a place.
    Place(&'a str),
    /// An option, with its value where one is due.
    Given(OptionForm, &'a str),
    /// An option whose value is missing.
    Cut(OptionForm),
    /// A word that begins as an option, and is none.
    Unknown(&'a str),
}

impl Form {
    /// The option of a name.
    fn option(&self, word: &str) -> Option<OptionForm> {
        self.options
            .iter()
            .find(|option| option.name == word)
            .copied()
    }

    /// What some words begin with, and those behind it. Where there are no options each word stands in a place.
    pub fn part<'a>(&self, words: &'a [String]) -> Option<(Part<'a>, &'a [String])>
        ensures { IfSome result (λ p. length p.1.now < length words.now) }
    {
        let [word, behind @ ..] = words else {
            return None;
        };
        let word = word.as_str();
        match (self.option(word), behind) {
            (None, _) if word.starts_with('-') && !self.options.is_empty() => {
                Some((Part::Unknown(word), behind))
            }
            (None, _) => Some((Part::Place(word), behind)),
            (Some(option), _) if is_alone(&option) => Some((Part::Given(option, ""), behind)),
            (Some(option), [value, behind @ ..]) => {
                Some((Part::Given(option, value.as_str()), behind))
            }
            (Some(option), []) => Some((Part::Cut(option), behind)),
        }
    }

    /// The word in a place, counted from 0, of those behind the program's name.
    pub fn place<'a>(&self, words: &'a [String], place: usize) -> Option<&'a str> {
        let mut left = words;
        let mut passed = 0usize;
        while let Some((part, behind)) = self.part(left) {
            if let Part::Place(word) = part {
                if passed == place {
                    return Some(word);
                }
                passed = passed.saturating_add(1);
            }
            left = behind;
        }
        None
    }

    /// The value of an option, where it stands there.
    pub fn value<'a>(&self, words: &'a [String], name: &str) -> Option<&'a str> {
        let mut left = words;
        while let Some((part, behind)) = self.part(left) {
            if let Part::Given(option, value) = part {
                if option.name == name {
                    return Some(value);
                }
            }
            left = behind;
        }
        None
    }
}

/// Whether nothing stands behind an option.
fn is_alone(option: &OptionForm) -> bool {
    match option.value {
        Value::Nothing => true,
        Value::File | Value::Number(..) | Value::End | Value::Cells | Value::Bytes => false,
    }
}
