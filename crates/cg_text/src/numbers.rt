//! Numbers in plain decimal.

ghost use Rattle.std.specs.Prelude.{◌≡◌, Some, None, if◌then◌else◌, option_and_then, option_map, pos};
ghost use Rattle.std.specs.List.{list_all};
ghost use Rattle.cg_text.specs.Fault.{fitting};
ghost use Rattle.cg_text.specs.Numbers.{is_digit, with_digit, value_of_digits, is_plain, plain_number, negative, fits_u64, fits_i64, read_u64, read_i64};

use crate::TextFault;

/// The number that the bytes spell: digits alone, of which the first is 0 only where it stands alone.
pub fn read_u64(t: &[u8]) -> Result<u64, TextFault>
    ensures { result ≡ read_u64 t.now }
{
    if !is_plain(t) {
        return Err(TextFault::NotANumber);
    }
    value_of_digits(t).ok_or(TextFault::TooLarge)
}

/// The number that the bytes spell: as for `read_u64`, with one `-` before a number below 0.
pub fn read_i64(t: &[u8]) -> Result<i64, TextFault>
    ensures { result ≡ read_i64 t.now }
{
    match t {
        [b'-', digits @ ..] => read_below_zero(digits),
        _ => read_from_zero(t),
    }
}

// the number below 0 whose digits stand behind its sign
fn read_below_zero(digits: &[u8]) -> Result<i64, TextFault>
    ensures { result ≡ fitting TextFault.NotANumber TextFault.TooLarge
        fits_i64 (option_and_then negative (plain_number digits.now)) }
{
    if !is_plain(digits) {
        return Err(TextFault::NotANumber);
    }
    match value_of_digits(digits) {
        Some(0) => Err(TextFault::NotANumber),
        Some(value) if value <= 1 << 63 => Ok(-1 - (value - 1) as i64),
        _ => Err(TextFault::TooLarge),
    }
}

fn read_from_zero(digits: &[u8]) -> Result<i64, TextFault>
    ensures { result ≡ fitting TextFault.NotANumber TextFault.TooLarge
        fits_i64 (option_map pos (plain_number digits.now)) }
{
    let value = read_u64(digits)?;
    if value < 1 << 63 {
        Ok(value as i64)
    } else {
        Err(TextFault::TooLarge)
    }
}

fn is_digit(byte: u8) -> bool
    ensures { result ≡ is_digit byte }
{
    b'0' <= byte && byte <= b'9'
}

fn are_digits(t: &[u8]) -> bool
    ensures { result ≡ list_all is_digit t.now }
{
    t.iter().all(|byte| is_digit(*byte))
}

fn is_plain(t: &[u8]) -> bool
    ensures { result ≡ is_plain t.now }
{
    match t {
        [] => false,
        [first, others @ ..] => {
            if *first == b'0' {
                others.is_empty()
            } else {
                are_digits(t)
            }
        }
    }
}

// the number that digits spell, where it has room
fn value_of_digits(digits: &[u8]) -> Option<u64>
    ensures { result ≡ (if fits_u64 (value_of_digits digits.now) then Some (value_of_digits digits.now) else None) }
{
    let mut value = 0;
    for digit in digits {
        value = with_digit(value, *digit)?;
    }
    Some(value)
}

fn with_digit(value: u64, digit: u8) -> Option<u64>
    ensures { result ≡ (if fits_u64 (with_digit value digit) then Some (with_digit value digit) else None) }
{
    let tens = value.checked_mul(10)?;
    tens.checked_add(u64::from(digit.saturating_sub(b'0')))
}
