//! How a text begins.

use crate::value::{push_flag, push_string};
use pg_mach_ready::Machine;
use pg_out_place::Text;

/// The number of the form. One that a reader of this form would read wrongly has another.
const FORM: u64 = 1;

/// Pushes the begin of a text of a program of this name, with the line that tells its version: the form, and the numbers of the
/// machine.
pub fn push_head(text: &mut Text, program: &[u8], version: &[u8], m: &Machine) {
    text.push(b"{\"format\":{\"name\":");
    push_string(text, program);
    text.push(b",\"number\":");
    text.push_number(FORM);
    text.push(b"},\"version\":");
    push_string(text, &version[..version.len().saturating_sub(1)]);
    text.push(b",\n\"machine\":{\"word\":");
    text.push_number(m.desc.word);
    text.push(b",\"address\":");
    text.push_number(m.desc.address);
    text.push(b",\"size\":");
    text.push_number(m.desc.size);
    text.push(b",\"causes\":");
    push_flag(text, m.desc.causes);
    text.push(b"}");
}
