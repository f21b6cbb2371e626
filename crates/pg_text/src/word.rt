//! Words as hexadecimal digits.
//!
//! Images hold the words of a machine as text, and states show them so: a word of `w` bits is `w / 4` digits, with leading
//! zeros, and nothing around them. Both ways go by the bytes of the word, two digits each, the highest first: the library
//! `hex` reads and writes the digits of bytes, and `pg_word` joins bytes to a number. So nothing here knows what a digit is
//! worth. Both calls work in memory that lies in the value itself.

ghost use Rattle.std.specs.Prelude.{◌≡◌, ◌<◌, ◌≤◌, ◌/◌, ◌%◌, ◌^◌, IfSome};
ghost use Rattle.std.specs.Str.Parse.{digits_value};
ghost use Rattle.arrayvec.specs.ArrayVec.{array_vec_len};
ghost use Rattle.pg_text.specs.Printing.{hex_text, hex_word_of};

use arrayvec::ArrayVec;
use hex::{decode_to_slice, encode_to_slice};
use pg_word::bytes::{from_bytes, to_bytes};

/// A word of `w` bits as its `w / 4` hexadecimal digits, in lower case and with leading zeros.
///
/// `w` is a word width: a multiple of 8 from 16 to 64. The value is below 2^w.
pub fn hex_word(w: u32, value: u64) -> ArrayVec<u8, 16>
    requires bytes { w % 8 ≡ 0 }
    requires least { 16 ≤ w }
    requires most { w ≤ 64 }
    requires fits { value < 2 ^ w }
    ensures text { result.items ≡ hex_text (w / 4) value }

    // They are so many, and they stand for the value.
    ensures len { array_vec_len result ≡ w / 4 }
    ensures value { digits_value 16 result.items ≡ value }
{
    let count = (w / 8) as usize;
    let bytes = to_bytes(value);
    let mut digits = ArrayVec::from([0u8; 16]);
    digits.truncate(2 * count);
    let written = encode_to_slice(&bytes[8 - count..], digits.as_mut_slice());
    prove!(written.is_ok());
    digits
}

/// The word of `w` bits that so many hexadecimal digits of either case write. `None` where these bytes are not `w / 4`
/// digits.
///
/// `w` is a multiple of 8 up to 64.
pub fn hex_word_of(w: u32, digits: &[u8]) -> Option<u64>
    requires bytes { w % 8 ≡ 0 }
    requires most { w ≤ 64 }
    ensures value { result ≡ hex_word_of w digits.now }
    ensures fits { IfSome result (λ word. word < 2 ^ w) }
{
    let mut bytes = [0u8; 8];
    let room = &mut bytes[..(w / 8) as usize];
    match decode_to_slice(digits, room) {
        Ok(()) => Some(from_bytes(room)),
        Err(_) => None,
    }
}
