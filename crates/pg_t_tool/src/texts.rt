//! Descriptions, a certificate and images.

/// The head of [`M0`], the same where a trap stores its cause, and both with cells for eight grants of 16.
pub(crate) const HEAD: &str = "machine { word 32; address 8; size 64; }\n";

pub(crate) const HEAD_WITH_CAUSES: &str = "machine { word 32; address 8; size 64; causes on; }\n";

pub(crate) const WIDE_HEAD: &str = "machine { word 32; address 8; size 255; }\n";

pub(crate) const WIDE_HEAD_WITH_CAUSES: &str =
    "machine { word 32; address 8; size 255; causes on; }\n";

/// The instructions of [`M0`].
pub(crate) const FOUR: &str =
    "instr add \"00000001_xxxxxxxx_yyyyyyyy_zzzzzzzz\" { mem[x] = (mem[y] + mem[z]); }
instr jmp \"00000010_................_aaaaaaaa\" { pc = a; }
instr svc \"00000011_........................\" { trap; }
instr lr \"00000100_........_llllllll_bbbbbbbb\" { if mode { trap; } rel = l; bound = b; }
";

/// The four instructions of the smallest machine that a monitor can run.
pub(crate) const M0: &str = "machine { word 32; address 8; size 64; }
instr add \"00000001_xxxxxxxx_yyyyyyyy_zzzzzzzz\" { mem[x] = (mem[y] + mem[z]); }
instr jmp \"00000010_................_aaaaaaaa\" { pc = a; }
instr svc \"00000011_........................\" { trap; }
instr lr \"00000100_........_llllllll_bbbbbbbb\" { if mode { trap; } rel = l; bound = b; }
";

/// An instruction that goes to user mode, in either mode.
pub(crate) const TO_USER_MODE: &str =
    "instr rtu \"00000101_................_aaaaaaaa\" { mode = 1:1; pc = a; }\n";

/// An instruction that copies, and that traps in user mode for one half of its words.
pub(crate) const HALF: &str =
    "instr half \"00000111_.......k_xxxxxxxx_yyyyyyyy\" { if (mode & k) { trap; } mem[x] = mem[y]; }\n";

/// A machine that has the instruction that goes to user mode alone.
pub(crate) const RTU: &str = "machine { word 32; address 8; size 64; }
instr rtu \"00000101_................_aaaaaaaa\" { mode = 1:1; pc = a; }
";

/// A machine of words of 16 bits whose instruction does nothing.
pub(crate) const IDLE: &str = "machine{word 16;address 4;size 8;}instr h\"0000............\"{}";

/// A certificate of [`RTU`]. Whether the instruction is privileged is open: of the 851 clauses of that question the sixth is
/// `-75 26` and the eleventh `76 75 74`, and the one step is what they come to. In supervisor mode it changes the mode, and the
/// other kinds are refuted by two clauses that contradict each other.
pub(crate) const OPEN: &str = "pgcert 2
finding rtu privileged spent 1
s 26 74 76 0 6 11 0
finding rtu control shown
size 4
psw s 2 0 4
0: 00000000 00000000 05000000 00000000
size 4
psw s 2 0 4
0: 00000000 00000000 05000000 00000000
finding rtu mode refuted
s 0 1 949 0
finding rtu location refuted
s 0 1 1387 0
finding rtu bound refuted
s 0 1 1447 0
end
";

/// An image of [`M0`]: a loop, of which every step is direct, with its data behind it.
pub(crate) const LOOP: &str = "2: 01000404 02000002 00000003\n";

/// An image that loads a register past its grant, is refused an address that another grant holds, and begins again.
pub(crate) const PAST: &str = "1: 00020010 040000ff 01140505\n";
