// Which runs of bytes are numbers, and the value of an integer.
ghost use Rattle.std.specs.Prelude.{◌≡◌, ◌≤◌, length, min};
ghost use Rattle.std.specs.List.{prefix_len};
ghost use Rattle.cp_gml.specs.Bytes.{is_digit};
ghost use Rattle.cp_gml.specs.Numbers.{unsigned, is_digits, is_integer, is_exponent, is_optional_exponent, is_fraction, is_unsigned_real, is_real, decimal_value, is_negative, signed_value, integer_value, integer_of};

use crate::bytes;

// More than the size of any integer in the range of ids.
const BEYOND: u64 = 2_147_483_649;

// The run without a sign at its front.
pub(crate) fn unsigned(run: &[u8]) -> &[u8]
    ensures { result.now ≡ unsigned run.now }
{
    match run {
        [first, rest @ ..] if bytes::is_sign(*first) => rest,
        _ => run,
    }
}

fn digits_len(run: &[u8]) -> usize
    ensures value { result ≡ prefix_len is_digit run.now }
    ensures within { result ≤ length run.now }
{
    run.iter().take_while(|b| bytes::is_digit(**b)).count()
}

fn is_digits(run: &[u8]) -> bool
    ensures { result ≡ is_digits run.now }
{
    !run.is_empty() && digits_len(run) == run.len()
}

pub(crate) fn is_integer(run: &[u8]) -> bool
    ensures { result ≡ is_integer run.now }
{
    is_digits(unsigned(run))
}

fn is_exponent(run: &[u8]) -> bool
    ensures { result ≡ is_exponent run.now }
{
    match run {
        [first, rest @ ..] => bytes::is_exponent_mark(*first) && is_integer(rest),
        [] => false,
    }
}

fn is_optional_exponent(run: &[u8]) -> bool
    ensures { result ≡ is_optional_exponent run.now }
{
    run.is_empty() || is_exponent(run)
}

// Whether this may follow the digits before the point. `some` tells that there are any.
fn is_fraction(some: bool, run: &[u8]) -> bool
    ensures { result ≡ is_fraction some run.now }
{
    match run {
        [b'.', rest @ ..] => {
            let digits = digits_len(rest);
            (some || digits > 0) && is_optional_exponent(&rest[digits..])
        }
        [_, ..] => some && is_exponent(run),
        [] => false,
    }
}

fn is_unsigned_real(run: &[u8]) -> bool
    ensures { result ≡ is_unsigned_real run.now }
{
    let digits = digits_len(run);
    is_fraction(digits > 0, &run[digits..])
}

pub(crate) fn is_real(run: &[u8]) -> bool
    ensures { result ≡ is_real run.now }
{
    is_unsigned_real(unsigned(run))
}

// Whether the first byte is a minus.
fn is_negative(run: &[u8]) -> bool
    ensures { result ≡ is_negative run.now }
{
    matches!(run, [b'-', ..])
}

// The value of the digits where it is below `BEYOND`, and `BEYOND` for all others.
fn magnitude(digits: &[u8]) -> u64
    ensures { result ≡ min (decimal_value digits.now) BEYOND }
{
    let mut value: u64 = 0;
    'reading: for digit in digits {
        let next = value * 10 + u64::from(digit.saturating_sub(b'0'));
        value = next.min(BEYOND);
    }
    value
}

// The number of this sign and size, if it is in the range of ids.
fn signed(negative: bool, magnitude: u64) -> Option<i32>
    requires { magnitude ≤ BEYOND }
    ensures { result ≡ signed_value negative magnitude }
{
    if negative {
        i32::try_from(-(magnitude as i64)).ok()
    } else {
        i32::try_from(magnitude).ok()
    }
}

// The value of an integer, if it is in the range of ids.
pub(crate) fn integer_value(run: &[u8]) -> Option<i32>
    ensures { result ≡ integer_value run.now }
{
    signed(is_negative(run), magnitude(unsigned(run)))
}

/// The integer that a run of bytes writes, an optional sign and digits, if it is in the range of ids,
/// -2147483648 to 2147483647. `None` for all other runs. Linear in the length of the run.
pub fn integer(run: &[u8]) -> Option<i32>
    ensures { result ≡ integer_of run.now }
{
    if is_integer(run) {
        integer_value(run)
    } else {
        None
    }
}
