//! Numbers as decimal digits: those that std prints, written into a vector that lies in the value itself, so that no
//! memory is taken.

ghost use Rattle.std.specs.Prelude.{◌≡◌};
ghost use Rattle.std.specs.Fmt.{decimal};

use arrayvec::ArrayVec;

/// The decimal digits of a number, without leading zeros: from 1 to 20 of them.
pub fn dec(value: u64) -> ArrayVec<u8, 20>
    ensures { result.items ≡ decimal value }
{
    if value < 10 {
        let mut digit = ArrayVec::new();
        digit.push(b'0' + value as u8);
        return digit;
    }
    let mut digits = dec(value / 10);
    digits.push(b'0' + (value % 10) as u8);
    digits
}
