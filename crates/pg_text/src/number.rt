//! Numbers from digits.
//!
//! The text that `piece` gives is a whole run of letters, digits and `_`, so what is asked here is only
//! whether all of it makes a number: decimal digits, or `0x` and 1 to 16 hexadecimal digits. So `12a` is a
//! bad number, and never a number with a word behind it. The addresses of images are decimal numbers too
//! (`pg_image`). Digits are tested, and then std reads them: its `from_str_radix` knows what a digit is
//! worth and where 2^64 is passed, but takes a sign in front, which no number here has.

ghost use Rattle.std.specs.Prelude.{◌≡◌, ◌≤◌};
ghost use Rattle.std.specs.List.{list_all};
ghost use Rattle.std.specs.Char.{is_ascii_hexdigit};
ghost use Rattle.std.specs.Str.Parse.{IsNumeral, digits_value};
ghost use Rattle.pg_lang_token.specs.Words.{is_digit};
ghost use Rattle.pg_text.specs.Cutting.{limited, dec_number, hex_digits, hex_number, number_of};

/// The number that digits of this base write, or `None` where it is 2^64 or more.
fn number_below(base: u32, digits: &[u8]) -> Option<u64>
    requires least { 2 ≤ base }
    requires most { base ≤ 36 }
    requires digits { IsNumeral base digits.now }
    ensures { result ≡ limited (digits_value base digits.now) }
{
    match str::from_utf8(digits) {
        Ok(text) => u64::from_str_radix(text, base).ok(),
        Err(_) => None,
    }
}

/// Decimal digits alone.
pub fn are_digits(text: &[u8]) -> bool
    ensures { result ≡ list_all is_digit text.now }
{
    text.iter().all(|byte| byte.is_ascii_digit())
}

/// Hexadecimal digits of either case alone.
pub fn are_hex_digits(text: &[u8]) -> bool
    ensures { result ≡ list_all is_ascii_hexdigit text.now }
{
    text.iter().all(|byte| byte.is_ascii_hexdigit())
}

/// The value of decimal digits, or `None` for other bytes, for none, and from 2^64 on.
pub fn dec_number(digits: &[u8]) -> Option<u64>
    ensures { result ≡ dec_number digits.now }
{
    if !digits.is_empty() && are_digits(digits) {
        number_below(10, digits)
    } else {
        None
    }
}

/// What stands behind `0x`: nothing where the text does not begin so.
fn hex_digits(text: &[u8]) -> &[u8]
    ensures { result.now ≡ hex_digits text.now }
{
    match text {
        [b'0', b'x', digits @ ..] => digits,
        _ => &[],
    }
}

/// The value of 1 to 16 hexadecimal digits, or `None` for other bytes, for none and for more.
fn hex_number(digits: &[u8]) -> Option<u64>
    ensures { result ≡ hex_number digits.now }
{
    if !digits.is_empty() && digits.len() <= 16 && are_hex_digits(digits) {
        number_below(16, digits)
    } else {
        None
    }
}

/// The value of a number's text, or `None` where it is no number below 2^64.
pub fn number_of(text: &[u8]) -> Option<u64>
    ensures { result ≡ number_of text.now }
{
    if are_digits(text) {
        dec_number(text)
    } else {
        hex_number(hex_digits(text))
    }
}
