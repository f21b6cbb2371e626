//! The line of what is known of an instruction.
//!
//! It has the name of the instruction, and for each kind in order the kind and `yes`, `no` or `open`. The line is made
//! whole before it is put, and has at most 113 bytes.

ghost use Rattle.std.specs.Prelude.{◌≡◌, ◌+◌, ◌*◌, ◌≤◌, ◌++◌, length};
ghost use Rattle.arrayvec.specs.ArrayVec.{array_vec_len};
ghost use Rattle.pg_image.specs.Lines.{most_line_bytes};
ghost use Rattle.pg_cert.specs.Verdicts.{kind_count};
ghost use Rattle.pg_report.specs.Verdicts.{privileged_answer, sensitive_answer, answer_of, answer_text, answers_text, answer_line};

use crate::push::{push_kind, push_name};
use pg_cert::{Family, Mark};
use pg_image::{Line, push};
use pg_type::Kind;

/// The line of an instruction of this name, with one mark for each kind of the family.
#[tactic(auto, unfolding(crate::specs::Verdicts::answer_line))]
pub(crate) fn answer_line(name: &[u8], family: Family, marks: &[Mark]) -> Line
    requires { length marks.now ≡ kind_count family }
    ensures { result.items ≡ answer_line name.now family marks.now }
{
    let mut line = Line::new();
    push_name(&mut line, name);
    push_answers(&mut line, family.kinds(), marks);
    line.push(b'\n');
    line
}

/// Pushes kinds, each with the answer of its mark.
fn push_answers(line: &mut Line, kinds: &[Kind], marks: &[Mark])
    requires both { length marks.now ≡ length kinds.now }
    requires room { array_vec_len line.old + 16 * length kinds.now ≤ most_line_bytes }
    ensures items { line.new.items ≡ line.old.items ++ answers_text kinds.now marks.now }
    ensures len { array_vec_len line.new ≤ array_vec_len line.old + 16 * length kinds.now }
{
    for (place, mark) in marks.iter().enumerate() {
        let kind = kinds[place];
        push_answer(line, kind, mark);
    }
}

/// Pushes a kind and the answer of its mark.
fn push_answer(line: &mut Line, kind: Kind, mark: &Mark)
    requires { array_vec_len line.old + 16 ≤ most_line_bytes }
    ensures items { line.new.items ≡ line.old.items ++ answer_text kind mark.now }
    ensures len { array_vec_len line.new ≤ array_vec_len line.old + 16 }
{
    push(line, b" ");
    push_kind(line, kind);
    push(line, b" ");
    push(line, answer_of(kind, mark));
}

/// Whether an instruction is of a kind, by its mark.
fn answer_of(kind: Kind, mark: &Mark) -> &'static [u8]
    ensures word { result.now ≡ answer_of kind mark.now }
    ensures len { length result.now ≤ 4 }
{
    match kind {
        Kind::Privileged => privileged_answer(mark),
        _ => sensitive_answer(mark),
    }
}

/// Whether an instruction is privileged: two states show that it is not.
fn privileged_answer(mark: &Mark) -> &'static [u8]
    ensures word { result.now ≡ privileged_answer mark.now }
    ensures len { length result.now ≤ 4 }
{
    match mark {
        Mark::Refuted => b"yes",
        Mark::Shown(_, _) => b"no",
        Mark::Spent(_) => b"open",
    }
}

/// Whether an instruction is sensitive: two states show that it is.
fn sensitive_answer(mark: &Mark) -> &'static [u8]
    ensures word { result.now ≡ sensitive_answer mark.now }
    ensures len { length result.now ≤ 4 }
{
    match mark {
        Mark::Refuted => b"no",
        Mark::Shown(_, _) => b"yes",
        Mark::Spent(_) => b"open",
    }
}
