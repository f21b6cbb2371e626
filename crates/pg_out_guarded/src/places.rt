//! Behind which braces of a text guards are put.

ghost use Rattle.std.specs.Prelude.{◌≡◌, ◌++◌, false, OnOk, IfOk};
ghost use Rattle.pg_out_guarded.specs.Places.{is_pattern, place_here, body_places, chosen};

use pg_lang_token::Tok;
use pg_text::Span;
use std::alloc::{AllocError, Global};

/// Whether a token is a pattern.
fn is_pattern(tok: &Tok) -> bool
    ensures { result ≡ is_pattern tok.now }
{
    match tok {
        Tok::Pattern(_) => true,
        Tok::Word(_) | Tok::Number(_) | Tok::Sign(_) => false,
    }
}

/// Pushes the place behind a token, where that token stands behind a pattern.
fn push_place(places: &mut Vec<usize>, behind: bool, at: Span) -> Result<(), AllocError>
    ensures { OnOk result (places.new.items ≡ places.old.items ++ place_here behind at) }
{
    if behind {
        places.push(at.to)?;
    }
    Ok(())
}

/// The places behind the braces that open bodies, in order: of each pattern, behind the token that follows it.
#[tactic(auto, unfolding(crate::specs::Places::body_places))]
pub(crate) fn body_places(alloc: Global, toks: &[(Tok, Span)]) -> Result<Vec<usize>, AllocError>
    ensures { IfOk result (λ places. places.items ≡ body_places false toks.now) }
{
    let mut places = Vec::new(alloc);
    let mut behind = false;
    for tok in toks {
        push_place(&mut places, behind, tok.1)?;
        behind = is_pattern(&tok.0);
    }
    Ok(places)
}

/// Pushes those of the places whose body has a mark: there are as many of both, or the shorter list ends it. A machine has few
/// instructions.
#[tactic(auto, unfolding(crate::specs::Places::chosen))]
pub(crate) fn push_chosen(
    list: &mut Vec<usize>,
    marks: &[bool],
    places: &[usize],
) -> Result<(), AllocError>
    ensures { OnOk result (list.new.items ≡ list.old.items ++ chosen marks.now places.now) }
{
    let [mark, marks @ ..] = marks else {
        return Ok(());
    };
    let [place, places @ ..] = places else {
        return Ok(());
    };
    if *mark {
        list.push(*place)?;
    }
    push_chosen(list, marks, places)
}
