//! What is told of one kind of an instruction alone.

ghost use Rattle.std.specs.Prelude.{◌<◌, length};

use crate::pair::{Pair, push_pair};
use pg_mach_ready::Machine;
use pg_out_pair::{Explained, explain};
use pg_out_place::Text;
use pg_type::Kind;
use pg_word::Sparse;
use std::alloc::{AllocError, Global};

/// Two states that show a kind, told, with the sentences that say it.
#[derive(Drop)]
pub struct Single {
    /// What a step makes of each.
    pub told: Explained,
    /// The lines that `tell_reasons` has for this kind alone, behind the line of the verdict.
    pub says: Vec<u8>,
}

/// What two states show of a kind of an instruction; none where they do not show it.
pub fn tell_single(
    alloc: Global,
    m: &Machine,
    instr: usize,
    kind: Kind,
    first: &Sparse,
    second: &Sparse,
) -> Result<Option<Single>, AllocError>
    requires { instr < length m.now.desc.instrs }
{
    let Some(told) = explain(alloc, m, instr, kind, first, second)? else {
        return Ok(None);
    };
    let mut says = Text::new(alloc);
    push_pair(
        alloc,
        &mut says,
        m,
        &Pair {
            instr,
            kind,
            first,
            second,
            told: &told,
        },
    )?;
    let says = says.finish()?;
    Ok(Some(Single { told, says }))
}
