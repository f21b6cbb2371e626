//! Numbers that a description passes: those of its head, and how much an instruction holds.

use pg_lang_valid::Limit;
use pg_out_place::{
    At, Found, Placed, Sentence, at_place, count_statements, count_word, first_place, instruction,
    nth_word, number_of, plain, statement,
};
use std::alloc::Global;

/// A number of the head and its place.
#[derive(Clone, Copy)]
pub struct Given {
    /// The number.
    pub value: u64,
    /// Where it stands.
    pub place: usize,
}

/// The numbers of the head.
#[derive(Clone, Copy)]
pub struct Head {
    /// The bits of a word.
    pub word: Given,
    /// The bits of an address.
    pub address: Given,
    /// The greatest size.
    pub size: Given,
    /// The bits of a program status word beside three addresses: 1, and 3 with causes.
    pub above: u64,
}

/// The number that stands right behind a word.
fn number_behind(toks: &[Placed], word: &[u8]) -> Option<Given> {
    let at = match nth_word(toks, word, 0) {
        None => return None,
        Some(at) => at,
    };
    match toks.get(at + 1) {
        None => None,
        Some(tok) => match number_of(tok) {
            None => None,
            Some(value) => Some(Given {
                value,
                place: tok.1.from,
            }),
        },
    }
}

/// The numbers of the head of a description.
pub fn head_of(toks: &[Placed]) -> Option<Head> {
    match (
        number_behind(toks, b"word"),
        number_behind(toks, b"address"),
        number_behind(toks, b"size"),
    ) {
        (Some(word), Some(address), Some(size)) => Some(Head {
            word,
            address,
            size,
            above: if count_word(toks, b"causes") == 0 {
                1
            } else {
                3
            },
        }),
        _ => None,
    }
}

/// Which number of the head is none of a machine.
pub fn shape(alloc: Global, toks: &[Placed]) -> Found {
    let head = match head_of(toks) {
        None => return plain(alloc, At::Whole, "the numbers of the head fit no machine"),
        Some(head) => head,
    };
    let word = head.word.value;
    let address = head.address.value;
    if word % 8 != 0 || word < 16 || 64 < word {
        plain(
            alloc,
            At::Place(head.word.place),
            "`word` is a multiple of 8 from 16 to 64",
        )
    } else if address < 4 || 20 < address {
        plain(alloc, At::Place(head.address.place), "`address` is 4 to 20")
    } else if word < psw_bits(head) {
        narrow(alloc, head)
    } else {
        sized(alloc, head)
    }
}

/// How many bits a program status word has.
fn psw_bits(head: Head) -> u64 {
    head.address
        .value
        .saturating_mul(3)
        .saturating_add(head.above)
}

/// A word that has not the bits of a program status word.
fn narrow(alloc: Global, head: Head) -> Found {
    Found {
        at: At::Place(head.address.place),
        what: Sentence::new(alloc)
            .words("a program status word has 3 addresses and ")
            .number(head.above)
            .words(if head.above == 1 {
                " bit, together "
            } else {
                " bits, together "
            })
            .number(psw_bits(head))
            .words(" bits, and a word has ")
            .number(head.word.value),
    }
}

/// A size that is too small or too great.
fn sized(alloc: Global, head: Head) -> Found {
    Found {
        at: At::Place(head.size.place),
        what: Sentence::new(alloc)
            .words("`size` is 4 to ")
            .number(most_size(head.address.value))
            .words(", since an address has ")
            .number(head.address.value)
            .words(" bits"),
    }
}

/// The greatest size where an address has so many bits.
fn most_size(address: u64) -> u64 {
    if address < 64 {
        (1u64 << address).saturating_sub(1)
    } else {
        u64::MAX
    }
}

/// What is limited, how much there may be, and how much there is, where that is counted.
#[derive(Clone, Copy)]
struct Over {
    words: &'static str,
    count: Option<u64>,
    at: At,
}

/// A limit that an instruction breaks.
pub fn limit_found(alloc: Global, toks: &[Placed], which: Limit, number: usize) -> Found {
    let over = match instruction(toks, number) {
        None => Over {
            words: "too many of something",
            count: None,
            at: At::Whole,
        },
        Some(instr) => broken_limit(toks, instr, which),
    };
    let what = Sentence::new(alloc).words(over.words);
    match over.count {
        None => Found { at: over.at, what },
        Some(count) => Found {
            at: over.at,
            what: what.words(", and there are ").number(count),
        },
    }
}

/// How a limit is broken by an instruction; the place is that of the first that is too much, where it is cheap to find.
fn broken_limit(toks: &[Placed], instr: &[Placed], which: Limit) -> Over {
    match which {
        Limit::Instructions => Over {
            words: "a description has at most 256 instructions",
            count: Some(count_word(toks, b"instr")),
            at: at_place(first_place(instr)),
        },
        Limit::Accesses => Over {
            words: "an instruction has at most 8 times `mem[`",
            count: Some(count_word(instr, b"mem")),
            at: at_place(nth_place(instr, b"mem", 8)),
        },
        Limit::Lets => Over {
            words: "an instruction has at most 32 lets",
            count: Some(count_word(instr, b"let")),
            at: at_place(nth_place(instr, b"let", 32)),
        },
        Limit::Statements => Over {
            words: "an instruction has at most 200 statements",
            count: Some(count_statements(instr)),
            at: at_place(statement_place(instr, 200)),
        },
        Limit::Expressions => Over {
            words: "an instruction has at most 1,024 expressions, their parts counted too",
            count: None,
            at: at_place(first_place(instr)),
        },
    }
}

/// The place of a word that stands there for the time of this number, counted from 0.
fn nth_place(toks: &[Placed], word: &[u8], number: usize) -> Option<usize> {
    match nth_word(toks, word, number) {
        None => None,
        Some(at) => Some(toks[at].1.from),
    }
}

/// The place of the statement of this number, counted from 0.
fn statement_place(instr: &[Placed], number: usize) -> Option<usize> {
    match statement(instr, number) {
        None => None,
        Some(stmt) => first_place(stmt),
    }
}
