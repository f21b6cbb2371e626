//! What is pushed at the end of a line.
//!
//! A line lies in a buffer of `LINE_BYTES`. Each function here says how many bytes it may need, so that a line is known to
//! fit before it is written.

ghost use Rattle.std.specs.Prelude.{◌≡◌, ◌+◌, ◌≤◌, ◌++◌, length};
ghost use Rattle.std.specs.Fmt.{decimal};
ghost use Rattle.arrayvec.specs.ArrayVec.{array_vec_len};
ghost use Rattle.pg_lang_token.specs.Words.{most_name_bytes};
ghost use Rattle.pg_image.specs.Lines.{most_line_bytes};
ghost use Rattle.pg_cert.specs.Lines.{kind_text};
ghost use Rattle.pg_report.specs.Texts.{name_text, two_numbers};

use pg_cert::put::kind_name;
use pg_image::{Line, push};
use pg_lang_token::NAME_BYTES;
use pg_text::dec;
use pg_type::Kind;

/// Pushes a number, as decimal digits.
pub(crate) fn push_number(line: &mut Line, number: u64)
    requires { array_vec_len line.old + 20 ≤ most_line_bytes }
    ensures items { line.new.items ≡ line.old.items ++ decimal number }
    ensures len { array_vec_len line.new ≤ array_vec_len line.old + 20 }
{
    push(line, dec(number).as_slice());
}

/// Pushes a word, and a place or an index behind it.
pub(crate) fn push_at(line: &mut Line, word: &[u8], place: usize)
    requires { array_vec_len line.old + length word.now + 20 ≤ most_line_bytes }
    ensures items { line.new.items ≡ line.old.items ++ word.now ++ decimal place }
    ensures len { array_vec_len line.new ≤ array_vec_len line.old + length word.now + 20 }
{
    push(line, word);
    push_number(line, place as u64);
}

/// Pushes a word, and two numbers with a space between behind it.
pub(crate) fn push_pair(line: &mut Line, word: &[u8], first: u64, second: u64)
    requires { array_vec_len line.old + length word.now + 41 ≤ most_line_bytes }
    ensures items { line.new.items ≡ line.old.items ++ word.now ++ two_numbers first second }
    ensures len { array_vec_len line.new ≤ array_vec_len line.old + length word.now + 41 }
{
    push(line, word);
    push_number(line, first);
    push(line, b" ");
    push_number(line, second);
}

/// Pushes a name: at most `NAME_BYTES` of it, and names have no more.
pub(crate) fn push_name(line: &mut Line, name: &[u8])
    requires { array_vec_len line.old + most_name_bytes ≤ most_line_bytes }
    ensures items { line.new.items ≡ line.old.items ++ name_text name.now }
    ensures len { array_vec_len line.new ≤ array_vec_len line.old + most_name_bytes }
{
    push(line, &name[..name.len().min(NAME_BYTES)]);
}

/// Pushes the word of a kind.
#[tactic(auto, using(crate::proofs::Names::kind_is_short))]
pub(crate) fn push_kind(line: &mut Line, kind: Kind)
    requires { array_vec_len line.old + 10 ≤ most_line_bytes }
    ensures items { line.new.items ≡ line.old.items ++ kind_text kind }
    ensures len { array_vec_len line.new ≤ array_vec_len line.old + 10 }
{
    push(line, kind_name(kind));
}
