//! Patterns that match one word both.
//!
//! The fifth class of validity, after which at most one instruction is meant by a word. Two patterns of one length
//! match no word both exactly where they clash: where some place has 0 in one and 1 in the other; the class before has
//! seen that all patterns are as long as a word. Each pair is looked at once. Nothing here takes memory.

ghost use Rattle.std.specs.Prelude.{◌≡◌, ◌≤◌, length, drop};
ghost use Rattle.pg_lang_valid.specs.Overlaps.{bytes_clash, clash, overlap_with, overlap};

use pg_ast::Instr;

/// Whether one byte wants the bit that the other forbids.
fn bytes_clash(c: u8, d: u8) -> bool
    ensures { result ≡ bytes_clash c d }
{
    (c == b'0' && d == b'1') || (c == b'1' && d == b'0')
}

/// Whether at some place one pattern has 0 and the other 1.
#[tactic(auto, unfolding(crate::specs::Overlaps::clash))]
pub fn clash(p: &[u8], q: &[u8]) -> bool
    ensures { result ≡ clash p.now q.now }
{
    for i in 0..p.len().min(q.len()) {
        if bytes_clash(p[i], q[i]) {
            return true;
        }
    }
    false
}

/// The first instruction from number `from` on whose pattern overlaps with `p`.
#[tactic(auto, unfolding(crate::specs::Overlaps::overlap_with))]
fn overlap_with(p: &[u8], from: usize, instrs: &[Instr]) -> Option<usize>
    requires { from ≤ length instrs.now }
    ensures { result ≡ overlap_with p.now from (drop from instrs.now) }
{
    for j in from..instrs.len() {
        if !clash(p, instrs[j].pattern.bytes.as_slice()) {
            return Some(j);
        }
    }
    None
}

/// The first pair of instructions whose patterns overlap: the least first number, then the least second.
#[tactic(auto, unfolding(crate::specs::Overlaps::overlap))]
pub fn overlap(instrs: &[Instr]) -> Option<(usize, usize)>
    ensures { result ≡ overlap 0 instrs.now }
{
    for (k, instr) in instrs.iter().enumerate() {
        if let Some(j) = overlap_with(instr.pattern.bytes.as_slice(), k + 1, instrs) {
            return Some((k, j));
        }
    }
    None
}
