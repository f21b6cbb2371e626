//! Why a token cannot stand where it does, and what to write.
//!
//! It is told by the tokens before the wrong one and those behind it; where nothing is known, it is said that this cannot stand
//! here.

use crate::near::{Near, near_of, opened};
use crate::writing::{bits_cut, named};
use pg_lang_token::{Sign, Tok, is_reserved};
use pg_out_place::{
    At, Found, Placed, Sentence, is_sign, is_word, operation, plain, spot_at, word_of,
};
use std::alloc::Global;

/// Why the token at a place is wrong, or the text ends there too early.
pub fn grammar(alloc: Global, bytes: &[u8], toks: &[Placed], place: usize) -> Found {
    let what = match near_of(toks, place) {
        None => ended(alloc, bytes, toks),
        Some(near) => wrong(alloc, bytes, near),
    };
    Found {
        at: At::Place(place),
        what,
    }
}

/// What is missing where a text ends too early.
fn ended(alloc: Global, bytes: &[u8], toks: &[Placed]) -> Sentence {
    let what = Sentence::new(alloc);
    if toks.is_empty() {
        return what.words("nothing stands here: a description begins with `machine {`");
    }
    match opened(toks) {
        None => what.words("the text ends here, and something is missing"),
        Some(open) => unclosed(
            what.words("the text ends here, and a `}` is missing: "),
            bytes,
            toks,
            open,
        ),
    }
}

/// And what it is that is not closed, and where it begins.
fn unclosed(what: Sentence, bytes: &[u8], toks: &[Placed], open: usize) -> Sentence {
    let line = spot_at(bytes, open).line;
    let what = match last_instr(toks) {
        [] => what.words("the head"),
        [name, ..] => match word_of(name) {
            None => what.words("a body"),
            Some(name) => what.words("the body of ").name(name),
        },
    };
    what.words(" begins on line ").number(line)
}

/// The tokens behind the last `instr`, or none.
pub fn last_instr(toks: &[Placed]) -> &[Placed] {
    match toks.iter().rposition(|tok| is_word(tok, b"instr")) {
        None => &[],
        Some(at) => &toks[at + 1..],
    }
}

/// Why a token is wrong.
fn wrong(alloc: Global, bytes: &[u8], near: Near<'_>) -> Sentence {
    let what = Sentence::new(alloc);
    if let Some(words) = in_head(near) {
        return what.words(words);
    }
    if is_word(near.here, b"instr") {
        if let Some(open) = opened(near.before) {
            let what = what.words("a `}` is missing before this: ");
            return unclosed(what, bytes, near.before, open);
        }
    }
    if let Some(sign) = unparenthesised(near) {
        return what.words("`").words(sign_text(sign)).words(
            "` cannot stand here: an operation with two sides stands in parentheses",
        );
    }
    if let Some(what) = bits_cut(alloc, near) {
        return what;
    }
    if let Some(what) = named(alloc, near) {
        return what;
    }
    what.words(cause(near))
}

/// Which part of the head is due, by how many stand before.
fn head_due(count: u64) -> &'static str {
    match count {
        0 => "`word` is due here: the head has `word`, `address` and `size`, in this order",
        1 => "`address` is due here: the head has `word`, `address` and `size`, in this order",
        2 => "`size` is due here: the head has `word`, `address` and `size`, in this order",
        3 => "`causes on;` or the `}` of the head is due here",
        _ => "the `}` of the head is due here",
    }
}

/// What is due in the head of a description, where the token stands there.
fn in_head(near: Near<'_>) -> Option<&'static str> {
    let [first, brace, parts @ ..] = near.before else {
        return None;
    };
    if !is_word(first, b"machine")
        || !is_sign(brace, Sign::OpenBrace)
        || parts.iter().any(|tok| is_sign(tok, Sign::CloseBrace))
    {
        return None;
    }
    let count = parts
        .iter()
        .filter(|tok| is_sign(tok, Sign::Semicolon))
        .count() as u64;
    match parts {
        [] => Some(head_due(count)),
        [.., last] if is_sign(last, Sign::Semicolon) => {
            if count >= 3 && is_word(near.here, b"instr") {
                None
            } else {
                Some(head_due(count))
            }
        }
        [.., last] if is_word(last, b"causes") => Some(
            "`on` is due here: `causes on;` turns causes on, and a head without it has none",
        ),
        [.., last] if word_of(last).is_some() && count < 3 => Some("a number is due here"),
        _ => None,
    }
}

/// Whether an expression may end with a token.
pub fn ends_expression(tok: &Placed) -> bool {
    match tok.0 {
        Tok::Word(_) | Tok::Number(_) => true,
        Tok::Sign(Sign::CloseParen) | Tok::Sign(Sign::CloseBracket) => true,
        _ => false,
    }
}

/// Whether a token is a word behind which an expression is due.
fn awaits_expression(tok: &Placed) -> bool {
    match word_of(tok) {
        Some(b"if") => true,
        _ => match tok.0 {
            Tok::Sign(Sign::Equals | Sign::OpenParen | Sign::OpenBracket | Sign::Tilde) => true,
            _ => operation(tok).is_some(),
        },
    }
}

/// The sign of an operation that stands behind an expression where none may.
fn unparenthesised(near: Near<'_>) -> Option<Sign> {
    match near.before {
        [.., before] if ends_expression(before) && !lacks_width(near) => operation(near.here),
        _ => None,
    }
}

/// Whether the token before is a number of an expression, whose width is due.
fn lacks_width(near: Near<'_>) -> bool {
    match near.before {
        [.., two_before, (Tok::Number(_), _)] => !is_sign(two_before, Sign::Colon)
            && !is_sign(two_before, Sign::Comma)
            && (word_of(two_before).is_none() || is_word(two_before, b"if")),
        _ => false,
    }
}

/// Whether a statement may begin with a token, or a block end with it.
fn begins_next(tok: &Placed) -> bool {
    is_sign(tok, Sign::CloseBrace)
        || match word_of(tok) {
            None => false,
            Some(word) => is_reserved(word),
        }
}

/// Whether two signs stand there one right behind the other.
fn is_pair(near: Near<'_>, first: Sign, second: Sign) -> bool {
    match near.before {
        [.., before] => is_sign(before, first)
            && is_sign(near.here, second)
            && before.1.to == near.here.1.from,
        [] => false,
    }
}

/// A sign of other languages that two tokens make.
fn other_sign(near: Near<'_>) -> Option<&'static str> {
    if is_pair(near, Sign::LessThan, Sign::Equals) {
        Some("`<=` is no sign: exchange the sides, write `<`, and turn the answer with `~`")
    } else if is_pair(near, Sign::Ampersand, Sign::Ampersand) {
        Some("`&&` is no sign: join two answers with `&`")
    } else if is_pair(near, Sign::Bar, Sign::Bar) {
        Some("`||` is no sign: join two answers with `|`")
    } else {
        None
    }
}

/// Why the token is wrong, where that is known, for a token behind another.
fn behind(near: Near<'_>, before: &Placed) -> &'static str {
    if lacks_width(near) {
        "the number before this has no width: write `:` and how many bits it has, as in `0:32`"
    } else if is_word(before, b"else") && is_word(near.here, b"if") {
        "`else` is followed by `{`: put this `if` into the braces, `else { if .. { .. } }`"
    } else if is_word(before, b"else") {
        "`else` is followed by `{`"
    } else if (is_word(before, b"let") || is_word(before, b"instr"))
        && word_of(near.here).is_some()
    {
        "this is a word of the language, and no name"
    } else if is_sign(before, Sign::CloseBrace) && is_sign(near.here, Sign::Semicolon) {
        "no `;` stands behind `}`"
    } else if is_sign(near.here, Sign::Minus) && !ends_expression(before) {
        "`-` stands between two sides: write `(0:32 - x)`, where x has 32 bits"
    } else if awaits_expression(before) {
        "an expression is due here"
    } else if ends_expression(before) && begins_next(near.here) {
        "a `;` is missing before this"
    } else {
        "this cannot stand here"
    }
}

/// Why the token is wrong, where that is known.
fn cause(near: Near<'_>) -> &'static str {
    if let Some(words) = other_sign(near) {
        return words;
    }
    match near.before {
        [] => "a description begins with `machine {`",
        [.., instr, _] if is_word(instr, b"instr") =>
            "the pattern of this instruction is due here, in quotes: a place for each bit of a word",
        [.., before] => behind(near, before),
    }
}

/// A sign as it is written.
pub fn sign_text(sign: Sign) -> &'static str {
    match sign {
        Sign::OpenBrace => "{",
        Sign::CloseBrace => "}",
        Sign::OpenParen => "(",
        Sign::CloseParen => ")",
        Sign::OpenBracket => "[",
        Sign::CloseBracket => "]",
        Sign::Semicolon => ";",
        Sign::Comma => ",",
        Sign::Colon => ":",
        Sign::Equals => "=",
        Sign::DoubleEquals => "==",
        Sign::Tilde => "~",
        Sign::Plus => "+",
        Sign::Minus => "-",
        Sign::Star => "*",
        Sign::Ampersand => "&",
        Sign::Bar => "|",
        Sign::Caret => "^",
        Sign::LessThan => "<",
        Sign::DoubleLess => "<<",
        Sign::DoubleGreater => ">>",
    }
}
