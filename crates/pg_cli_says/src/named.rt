//! What the words of a command name, as far as what is said of it has to.

/// What a command wants room for, and so what makes less wanted.
#[derive(Debug, Clone, Copy, PartialEq, Eq)]
pub enum Room {
    /// One guest, of the cells of `--grant`.
    Guest,
    /// Guests, each of the cells of `--grant`.
    Guests,
    /// A guest, and monitors under it.
    Monitors,
    /// A saved guest, behind cells that are passed over.
    Saved,
}

/// What the words of a command name.
#[derive(Debug, Clone, Copy)]
pub struct Named<'a> {
    /// The file of the description.
    pub desc: Option<&'a str>,
    /// The file of the certificate that is read.
    pub cert: Option<&'a str>,
    /// The file of the certificate that is saved.
    pub saved: Option<&'a str>,
    /// Whether the certificate is to be one of `hcheck`.
    pub is_hybrid: bool,
    /// Whether the words may bound the search.
    pub has_budget: bool,
    /// An instruction.
    pub instr: Option<&'a str>,
    /// What room is wanted for.
    pub room: Room,
}

impl<'a> Named<'a> {
    /// Nothing is named.
    pub fn nothing() -> Named<'a> {
        Named {
            desc: None,
            cert: None,
            saved: None,
            is_hybrid: false,
            has_budget: false,
            instr: None,
            room: Room::Guest,
        }
    }

    /// A description.
    pub fn desc(desc: &'a str) -> Named<'a> {
        Named {
            desc: Some(desc),
            ..Named::nothing()
        }
    }

    /// A description, and a certificate of it that is read.
    pub fn judged(desc: &'a str, cert: &'a str) -> Named<'a> {
        Named {
            cert: Some(cert),
            ..Named::desc(desc)
        }
    }
}

/// What words name that is not there.
#[derive(Debug, Clone, Copy, PartialEq, Eq)]
pub enum Lacking {
    /// The description has no such instruction.
    Instr,
    /// The certificate has no such kind.
    Kind,
}

/// Is told of words that name what is not there.
pub trait WordsWatcher {
    /// This is not there.
    fn lacks(&mut self, lacking: Lacking);
}
