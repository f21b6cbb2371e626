//! The lines of refusals and of usage.
//!
//! `pg_tool` puts one of these where it refuses a command, and then nothing else. A refusal is one line, made whole before
//! it is put: each function that pushes says how many bytes it may need, 72 for the whole, so that the line fits its buffer.
//! The texts of refusals, byte for byte, are in `specs/Texts.antt`. The lines of usage stand in the table of commands.

ghost use Rattle.std.specs.Prelude.{◌≡◌, ◌+◌, ◌≤◌, ◌++◌};
ghost use Rattle.arrayvec.specs.ArrayVec.{array_vec_len};
ghost use Rattle.pg_cli_table.specs.Commands.{usage_text};
ghost use Rattle.pg_edge.specs.Sink.{Puts};
ghost use Rattle.pg_image.specs.Lines.{most_line_bytes};
ghost use Rattle.pg_report.specs.Texts.{limit_number, description_text, image_text, certificate_text, source_line_text, saved_line_text, refusal_text};

use crate::line::{
    CertificateLine, DescriptionLine, ImageLine, RefusalLine, SavedLine, SourceLine,
};
use crate::push::{push_at, push_kind, push_name, push_pair};
use pg_cli_table::commands;
use pg_edge::{Failed, Sink};
use pg_image::{Line, push};
use pg_lang_valid::Limit;

/// Puts the line that says why a command is refused. The cost is that of one line.
///
/// # Errors
/// `Failed` where not all of the line went through. A front of it may have.
pub fn put_refusal<S: Sink>(out: &mut S, line: &RefusalLine) -> Result<(), Failed>
    ensures { Puts (S.written out.old) (S.written out.new) (S.faults out.old) (S.faults out.new)
        (refusal_text line.now) result }
{
    out.put(refusal_line(line).as_slice())
}

/// Puts the lines that say how the program is called, one for each command, in the order of their table.
///
/// # Errors
/// `Failed` where not all of them went through. A front of them may have.
pub fn put_usage<S: Sink>(out: &mut S) -> Result<(), Failed>
    ensures { Puts (S.written out.old) (S.written out.new) (S.faults out.old) (S.faults out.new)
        usage_text result }
{
    for command in commands() {
        out.put(command.synopsis().usage.as_bytes())?;
    }
    Ok(())
}

/// The line of a refusal, with its LF.
fn refusal_line(line: &RefusalLine) -> Line
    ensures { result.items ≡ refusal_text line.now }
{
    let mut text = Line::new();
    push_refusal(&mut text, line);
    text
}

/// Pushes the line of a refusal, with its LF.
#[tactic(auto, unfolding(crate::specs::Texts::refusal_text))]
fn push_refusal(text: &mut Line, line: &RefusalLine)
    requires { array_vec_len text.old + 72 ≤ most_line_bytes }
    ensures items { text.new.items ≡ text.old.items ++ refusal_text line.now }
{
    match line {
        RefusalLine::Description(description) => {
            push(text, b"description: ");
            push_description(text, description);
            text.push(b'\n');
        }
        RefusalLine::Image(number, image) => {
            push_at(text, b"image ", *number);
            push(text, b": ");
            push_image(text, image);
            text.push(b'\n');
        }
        RefusalLine::Certificate(certificate) => {
            push(text, b"certificate: ");
            push_certificate(text, certificate);
            text.push(b'\n');
        }
        RefusalLine::Room(wanted, free) => {
            push_pair(text, b"room ", *wanted, *free);
            text.push(b'\n');
        }
        RefusalLine::Source(source) => {
            push(text, b"source: ");
            push_source(text, source);
            text.push(b'\n');
        }
        RefusalLine::Saved(saved) => {
            push(text, b"saved: ");
            push_saved(text, saved);
            text.push(b'\n');
        }
    }
}

/// Pushes why a description is refused.
#[tactic(auto, unfolding(crate::specs::Texts::description_text))]
fn push_description(text: &mut Line, why: &DescriptionLine)
    requires { array_vec_len text.old + 58 ≤ most_line_bytes }
    ensures items { text.new.items ≡ text.old.items ++ description_text why.now }
    ensures len { array_vec_len text.new ≤ array_vec_len text.old + 58 }
{
    match why {
        DescriptionLine::Long => push(text, b"long"),
        DescriptionLine::Token(place) => push_at(text, b"token ", *place),
        DescriptionLine::Grammar(place) => push_at(text, b"grammar ", *place),
        DescriptionLine::Deep(place) => push_at(text, b"deep ", *place),
        DescriptionLine::Shape => push(text, b"shape"),
        DescriptionLine::Limit(limit, instr) => push_pair(
            text,
            b"limit ",
            number_of(*limit),
            *instr as u64,
        ),
        DescriptionLine::Twice(name) => {
            push(text, b"twice ");
            push_name(text, name.as_slice());
        }
        DescriptionLine::Pattern(instr) => push_at(text, b"pattern ", *instr),
        DescriptionLine::Overlap(i, j) => push_pair(text, b"overlap ", *i as u64, *j as u64),
        DescriptionLine::Name(instr, name) => {
            push_at(text, b"name ", *instr);
            push(text, b" ");
            push_name(text, name.as_slice());
        }
        DescriptionLine::Width(instr, place, _) => push_pair(
            text,
            b"width ",
            *instr as u64,
            *place as u64,
        ),
    }
}

/// The number of a limit.
fn number_of(limit: Limit) -> u64
    ensures { result ≡ limit_number limit }
{
    match limit {
        Limit::Instructions => 1,
        Limit::Accesses => 2,
        Limit::Lets => 3,
        Limit::Statements => 4,
        Limit::Expressions => 5,
    }
}

/// Pushes why an image is refused.
#[tactic(auto, unfolding(crate::specs::Texts::image_text))]
fn push_image(text: &mut Line, why: &ImageLine)
    requires { array_vec_len text.old + 28 ≤ most_line_bytes }
    ensures items { text.new.items ≡ text.old.items ++ image_text why.now }
    ensures len { array_vec_len text.new ≤ array_vec_len text.old + 28 }
{
    match why {
        ImageLine::Long => push(text, b"long"),
        ImageLine::Token(place) => push_at(text, b"token ", *place),
        ImageLine::Grammar(line) => push_at(text, b"grammar ", *line),
        ImageLine::Address(line) => push_at(text, b"address ", *line),
        ImageLine::Overlap(line) => push_at(text, b"overlap ", *line),
    }
}

/// Pushes why a certificate is refused.
#[tactic(auto, unfolding(crate::specs::Texts::certificate_text))]
fn push_certificate(text: &mut Line, why: &CertificateLine)
    requires { array_vec_len text.old + 58 ≤ most_line_bytes }
    ensures items { text.new.items ≡ text.old.items ++ certificate_text why.now }
    ensures len { array_vec_len text.new ≤ array_vec_len text.old + 58 }
{
    match why {
        CertificateLine::Long => push(text, b"long"),
        CertificateLine::Token(line) => push_at(text, b"token ", *line as usize),
        CertificateLine::Grammar(line) => push_at(text, b"grammar ", *line as usize),
        CertificateLine::Version => push(text, b"version 1"),
        CertificateLine::Instr(line) => push_at(text, b"instr ", *line as usize),
        CertificateLine::Step(line, cause) => push_pair(
            text,
            b"step ",
            u64::from(*line),
            u64::from(*cause),
        ),
        CertificateLine::Closed(line) => push_at(text, b"closed ", *line as usize),
        CertificateLine::Pair(line) => push_at(text, b"pair ", *line as usize),
        CertificateLine::Spent(line) => push_at(text, b"spent ", *line as usize),
        CertificateLine::Missing(name, kind) => {
            push(text, b"missing ");
            push_name(text, name.as_slice());
            push(text, b" ");
            push_kind(text, *kind);
        }
        CertificateLine::Extra(line) => push_at(text, b"extra ", *line as usize),
        CertificateLine::Delete(line) => push_at(text, b"delete ", *line as usize),
    }
}

/// Pushes why a source is refused.
#[tactic(auto, unfolding(crate::specs::Texts::source_line_text))]
fn push_source(text: &mut Line, why: &SourceLine)
    requires { array_vec_len text.old + 28 ≤ most_line_bytes }
    ensures items { text.new.items ≡ text.old.items ++ source_line_text why.now }
    ensures len { array_vec_len text.new ≤ array_vec_len text.old + 28 }
{
    match why {
        SourceLine::Long => push(text, b"long"),
        SourceLine::Token(place) => push_at(text, b"token ", *place),
        SourceLine::Grammar(line) => push_at(text, b"grammar ", *line),
        SourceLine::Name(line) => push_at(text, b"name ", *line),
        SourceLine::Field(line) => push_at(text, b"field ", *line),
        SourceLine::Label(line) => push_at(text, b"label ", *line),
        SourceLine::Range(line) => push_at(text, b"range ", *line),
        SourceLine::Place(line) => push_at(text, b"place ", *line),
        SourceLine::Overlap(line) => push_at(text, b"overlap ", *line),
    }
}

/// Pushes why the text of a saved guest is refused.
#[tactic(auto, unfolding(crate::specs::Texts::saved_line_text))]
fn push_saved(text: &mut Line, why: &SavedLine)
    requires { array_vec_len text.old + 28 ≤ most_line_bytes }
    ensures items { text.new.items ≡ text.old.items ++ saved_line_text why.now }
    ensures len { array_vec_len text.new ≤ array_vec_len text.old + 28 }
{
    match why {
        SavedLine::Long => push(text, b"long"),
        SavedLine::Token(line) => push_at(text, b"token ", *line as usize),
        SavedLine::Grammar(line) => push_at(text, b"grammar ", *line as usize),
        SavedLine::Version(line) => push_at(text, b"version ", *line as usize),
    }
}
