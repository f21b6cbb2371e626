//! Words as bytes.
//!
//! A word of `w` bits has `w / 8` bytes, and whoever reads or writes its text goes by these. Here they are joined to the
//! number and taken from it, the high end first, by std's `from_be_bytes` and `to_be_bytes`. A byte is two hexadecimal
//! digits, so that the digits of a word are those of its bytes in order (`pg_text`).

ghost use Rattle.std.specs.Prelude.{◌≡◌, ◌≤◌, ◌-◌, ◌++◌, ℕ, length, drop, replicate};
ghost use Rattle.pg_word.specs.Bytes.{bytes_value, low_bytes};

/// The number that at most 8 bytes write, the highest first.
pub fn from_bytes(bytes: &[u8]) -> u64
    requires { length bytes.now ≤ 8 }
    ensures { result ≡ bytes_value bytes.now }
{
    u64::from_be_bytes(behind_zeros(bytes))
}

/// The bytes behind as many zeros as make eight.
fn behind_zeros(bytes: &[u8]) -> [u8; 8]
    requires { length bytes.now ≤ 8 }
    ensures { result ≡ replicate (8 - length bytes.now) 0 ++ bytes.now }
{
    let mut whole = [0u8; 8];
    whole[8 - bytes.len()..].copy_from_slice(bytes);
    whole
}

/// The bytes of a number, the highest first: the lowest `n` of them stand at the end.
pub fn to_bytes(number: u64) -> [u8; 8]
    ensures { (n : ℕ) → n ≤ 8 → drop (8 - n) result ≡ low_bytes n number }
{
    number.to_be_bytes()
}
