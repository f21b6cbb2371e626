//! Tokens as text.
//!
//! `print` calls `layout`: one walk over the tokens, which keeps two things, whether a line begins and
//! how many braces are open. What a token needs in front of it and behind it follows from these and
//! the token alone. The walk never fails on tokens: where more braces are closed than are open, none
//! is open then, and every list has a layout. Its time is linear in the text that it writes. Want of
//! memory ends it, and nothing is said of what was written by then, since nobody sees it.

ghost use Rattle.std.specs.Prelude.{◌≡◌, ◌+◌, ◌≤◌, ◌<◌, ◌^◌, ◌++◌, ◌∷◌, [], true, All, OnOk, IfOk};
ghost use Rattle.pg_lang_print.specs.Layout.{sign_text, token_text, ends_line, open_behind, braces_at, indent, lead, line_end, layout};
ghost use Rattle.pg_lang_print.specs.Numbers.{FitsNumber};

use pg_lang_token::{Sign, Tok};
use pg_text::dec;
use std::alloc::{AllocError, Global};

/// The bytes of a sign.
fn sign_text(sign: Sign) -> &'static [u8]
    ensures { result.now ≡ sign_text sign }
{
    match sign {
        Sign::OpenBrace => b"{",
        Sign::CloseBrace => b"}",
        Sign::OpenParen => b"(",
        Sign::CloseParen => b")",
        Sign::OpenBracket => b"[",
        Sign::CloseBracket => b"]",
        Sign::Semicolon => b";",
        Sign::Comma => b",",
        Sign::Colon => b":",
        Sign::Equals => b"=",
        Sign::DoubleEquals => b"==",
        Sign::Tilde => b"~",
        Sign::Plus => b"+",
        Sign::Minus => b"-",
        Sign::Star => b"*",
        Sign::Ampersand => b"&",
        Sign::Bar => b"|",
        Sign::Caret => b"^",
        Sign::LessThan => b"<",
        Sign::DoubleLess => b"<<",
        Sign::DoubleGreater => b">>",
    }
}

/// A pattern, in quotes.
fn put_quoted(text: &mut Vec<u8>, bytes: &[u8]) -> Result<(), AllocError>
    ensures { OnOk result (text.new.items ≡ text.old.items ++ 34 ∷ bytes.now ++ 34 ∷ []) }
{
    text.push(b'"')?;
    text.extend_from_slice(bytes)?;
    text.push(b'"')?;
    Ok(())
}

/// A token alone. The number that it may be is one of 64 bits.
fn put_token(text: &mut Vec<u8>, tok: &Tok) -> Result<(), AllocError>
    ensures text { OnOk result (text.new.items ≡ text.old.items ++ token_text tok.now) }
    ensures fits { FitsNumber tok.now }
{
    match tok {
        Tok::Word(bytes) => text.extend_from_slice(bytes.as_slice()),
        Tok::Number(value) => text.extend_from_slice(dec(*value).as_slice()),
        Tok::Pattern(bytes) => put_quoted(text, bytes.as_slice()),
        Tok::Sign(sign) => text.extend_from_slice(sign_text(*sign)),
    }
}

/// Whether a line ends behind this token.
fn ends_line(tok: &Tok) -> bool
    ensures { result ≡ ends_line tok.now }
{
    match tok {
        Tok::Sign(Sign::Semicolon) => true,
        Tok::Sign(Sign::OpenBrace) => true,
        Tok::Sign(Sign::CloseBrace) => true,
        _ => false,
    }
}

/// The braces that are open behind a token, where so many are open in front of it.
fn open_behind(braces: usize, tok: &Tok) -> usize
    requires { braces + 1 < 2 ^ 64 }
    ensures count { result ≡ open_behind braces tok.now }
    ensures most { result ≤ braces + 1 }
{
    match tok {
        Tok::Sign(Sign::OpenBrace) => braces + 1,
        Tok::Sign(Sign::CloseBrace) => braces.saturating_sub(1),
        _ => braces,
    }
}

/// The braces that a line with this first token is moved in for.
fn braces_at(braces: usize, tok: &Tok) -> usize
    ensures { result ≡ braces_at braces tok.now }
{
    match tok {
        Tok::Sign(Sign::CloseBrace) => braces.saturating_sub(1),
        _ => braces,
    }
}

/// Two spaces for each brace.
#[tactic(auto, unfolding(crate::specs::Layout::indent))]
fn put_indent(text: &mut Vec<u8>, braces: usize) -> Result<(), AllocError>
    ensures { OnOk result (text.new.items ≡ text.old.items ++ indent braces) }
{
    let mut left = braces;
    while left > 0 {
        text.push(b' ')?;
        text.push(b' ')?;
        left -= 1;
    }
    Ok(())
}

/// What stands in front of a token.
fn put_lead(text: &mut Vec<u8>, begins: bool, braces: usize, tok: &Tok) -> Result<(), AllocError>
    ensures { OnOk result (text.new.items ≡ text.old.items ++ lead begins braces tok.now) }
{
    if begins {
        return put_indent(text, braces_at(braces, tok));
    }
    text.extend_from_slice(b" ")
}

/// LF, where a line ends.
fn put_line_end(text: &mut Vec<u8>, ends: bool) -> Result<(), AllocError>
    ensures { OnOk result (text.new.items ≡ text.old.items ++ line_end ends) }
{
    if ends {
        text.push(b'\n')?;
    }
    Ok(())
}

/// The text of tokens, laid out in lines. Their numbers, being of 64 bits, are below 2^64.
#[tactic(auto, unfolding(crate::specs::Layout::layout))]
pub(crate) fn layout(alloc: Global, toks: &[Tok]) -> Result<Vec<u8>, AllocError>
    ensures text { IfOk result (λ text. text.items ≡ layout true 0 toks.now) }
    ensures fits { IfOk result (λ _. All FitsNumber toks.now) }
{
    let mut text = Vec::new(alloc);
    let mut begins = true;
    let mut braces = 0;
    for tok in toks {
        put_lead(&mut text, begins, braces, tok)?;
        put_token(&mut text, tok)?;
        begins = ends_line(tok);
        put_line_end(&mut text, begins)?;
        braces = open_behind(braces, tok);
    }
    Ok(text)
}
