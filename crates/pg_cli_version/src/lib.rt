//! The version of the programs, as they tell it.
#![tactic(auto)]

/// The line that tells it: the version, which is that of the file `VERSION` at the top, and the kit that the programs are proved
/// with.
pub const VERSION: &[u8] = b"pgv 1.0.0 (rattle-kit-13f)\n";
