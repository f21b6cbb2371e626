//! What is pushed at the end of a line that lies in the value itself, so that no memory is taken.

ghost use Rattle.std.specs.Prelude.{◌≡◌, ◌+◌, ◌≤◌, ◌++◌, length, map, take};
ghost use Rattle.arrayvec.specs.ArrayVec.{array_vec_len};
ghost use Rattle.pg_io_host.specs.Telling.{shown_byte};

use arrayvec::ArrayVec;

/// Pushes bytes, for which there is room.
pub(crate) fn push<const N: usize>(line: &mut ArrayVec<u8, N>, bytes: &[u8])
    requires { array_vec_len line.old + length bytes.now ≤ N }
    ensures items { line.new.items ≡ line.old.items ++ bytes.now }
    ensures len { array_vec_len line.new ≡ array_vec_len line.old + length bytes.now }
{
    for byte in bytes {
        line.push(*byte);
    }
}

/// Pushes bytes, for which there is room, each control character among them as `?`.
pub(crate) fn push_shown<const N: usize>(line: &mut ArrayVec<u8, N>, bytes: &[u8])
    requires { array_vec_len line.old + length bytes.now ≤ N }
    ensures items { line.new.items ≡ line.old.items ++ map shown_byte bytes.now }
    ensures len { array_vec_len line.new ≡ array_vec_len line.old + length bytes.now }
{
    for byte in bytes {
        line.push(shown(*byte));
    }
}

/// The byte as it is shown.
fn shown(byte: u8) -> u8
    ensures { result ≡ shown_byte byte }
{
    if byte.is_ascii_control() { b'?' } else { byte }
}

/// The first bytes, at most so many.
pub(crate) fn front(bytes: &[u8], most: usize) -> &[u8]
    ensures front { result.now ≡ take most bytes.now }
    ensures short { length result.now ≤ most }
{
    &bytes[..bytes.len().min(most)]
}
