ghost use Rattle.std.specs.Prelude.{◌≡◌, ◌≢◌, ℕ, ◌<◌, ◌≤◌, ◌^◌, ◌-◌, ◌+◌, ◌++◌, List, false, length, take, drop, decimal, vec_len, vec_capacity, IfSome, IfNone, IsSomeAnd, OnOk, OnErr};
ghost use Rattle.std.specs.Int.{IsInRange};
ghost use Rattle.std.specs.Str.Parse.{AllDigits, digits_value};
ghost use Rattle.text_parts.specs.Number.{IsNumberText, begins_with_digit};

use crate::no_memory::NoMemory;
use crate::short::put_short;
use itoa::Buffer;

// A number of so many digits is below 2^64, whatever they are.
const FITTING_DIGITS: usize = 19;

// How many digits the greatest number below 2^64 has.
const LONGEST_NUMBER: usize = 20;

/// Reads a number: `0`, or a digit from 1 to 9 followed by digits, below 2^64 and with nothing around it.
pub fn read_number(bytes: &[u8]) -> Option<u64>
    ensures found { IfSome result (λ number. bytes.now ≡ decimal number) }
    ensures none { IfNone result ((number : ℕ) → number < 2 ^ 64 → bytes.now ≢ decimal number) }
{
    let (number, rest) = take_number(bytes)?;
    if rest.is_empty() { Some(number) } else { None }
}

/// Reads the number that the bytes begin with, all of its digits, and answers what stands behind it.
#[inline(always)]
pub fn take_number(bytes: &[u8]) -> Option<(u64, &[u8])>
    ensures found { IfSome result (λ read. bytes.now ≡ decimal read.0 ++ read.1.now) }
    ensures only { (number : ℕ) (rest : List ℕ) → number < 2 ^ 64 → begins_with_digit rest ≡ false → bytes.now ≡ decimal number ++ rest
        → IsSomeAnd result (λ read. (read.0 ≡ number) × (read.1.now ≡ rest)) }
{
    let (number, len) = leading_number(bytes)?;
    if bytes[0] == b'0' && len > 1 {
        return None;
    }
    Some((number, &bytes[len..]))
}

/// Appends the digits of a number.
pub fn write_number(number: u64, out: &mut Vec<u8>) -> Result<(), NoMemory>
    ensures appended { OnOk result (out.new.items ≡ out.old.items ++ decimal number) }
    ensures unchanged { OnErr result (out.new.items ≡ out.old.items) }
{
    out.reserve(LONGEST_NUMBER)?;
    put_number(number, out);
    Ok(())
}

/// Appends the digits of a number where there is room for the longest, which has 20.
pub fn put_number(number: u64, out: &mut Vec<u8>)
    requires room { vec_len out.old + 20 ≤ vec_capacity out.old }
    ensures written { out.new.items ≡ out.old.items ++ decimal number }
    ensures len { vec_len out.new ≤ vec_len out.old + 20 }
    ensures capacity { vec_capacity out.new ≡ vec_capacity out.old }
{
    if number < 10 {
        out.push_reserved(b'0' + number as u8);
        return;
    }
    let mut buffer = Buffer::new();
    put_short(buffer.format(number).as_bytes(), out);
}

/// A number below 2^64 has exactly one text, which is `0`, or a digit from 1 to 9 followed by digits; and each such text is that of the number that its digits write.
pub fn number_has_one_text()
    ensures one { (m n : ℕ) → m < 2 ^ 64 → n < 2 ^ 64 → decimal m ≡ decimal n → m ≡ n }
    ensures spelled { (n : ℕ) → n < 2 ^ 64 → IsNumberText (decimal n) }
    ensures valued { (n : ℕ) → n < 2 ^ 64 → digits_value 10 (decimal n) ≡ n }
    ensures each { (text : List ℕ) → IsNumberText text → digits_value 10 text < 2 ^ 64 → text ≡ decimal (digits_value 10 text) }
{}

// The value of the digits that the bytes begin with, and how many they are: at least one.
#[inline(always)]
fn leading_number(bytes: &[u8]) -> Option<(u64, usize)>
    ensures some { IfSome result (λ read. 0 < read.1) }
    ensures within { IfSome result (λ read. read.1 ≤ length bytes.now) }
    ensures digits { IfSome result (λ read. AllDigits 10 (take read.1 bytes.now)) }
    ensures all { IfSome result (λ read. begins_with_digit (drop read.1 bytes.now) ≡ false) }
    ensures value { IfSome result (λ read. read.0 ≡ digits_value 10 (take read.1 bytes.now)) }
    ensures none { IfNone result ((number : ℕ) (rest : List ℕ) → number < 2 ^ 64 → begins_with_digit rest ≡ false → bytes.now ≢ decimal number ++ rest) }
{
    if bytes.is_empty() {
        return None;
    }
    let mut value = digit_of(bytes[0])?;
    let short = bytes.len().min(FITTING_DIGITS);
    for i in 1..short {
        let Some(digit) = digit_of(bytes[i]) else {
            return Some((value, i));
        };
        value = value * 10 + digit;
    }
    if short == bytes.len() {
        return Some((value, short));
    }
    with_last_digit(bytes, value)
}

// Reads on where more bytes follow as many digits as always fit. One digit more may fit, and no number below 2^64 has two more.
#[inline(always)]
fn with_last_digit(bytes: &[u8], value: u64) -> Option<(u64, usize)>
    requires more { FITTING_DIGITS < length bytes.now }
    requires read_digits { AllDigits 10 (take FITTING_DIGITS bytes.now) }
    requires read_value { value ≡ digits_value 10 (take FITTING_DIGITS bytes.now) }
    ensures some { IfSome result (λ read. 0 < read.1) }
    ensures within { IfSome result (λ read. read.1 ≤ length bytes.now) }
    ensures digits { IfSome result (λ read. AllDigits 10 (take read.1 bytes.now)) }
    ensures all { IfSome result (λ read. begins_with_digit (drop read.1 bytes.now) ≡ false) }
    ensures value { IfSome result (λ read. read.0 ≡ digits_value 10 (take read.1 bytes.now)) }
    ensures none { IfNone result ((number : ℕ) (rest : List ℕ) → number < 2 ^ 64 → begins_with_digit rest ≡ false → bytes.now ≢ decimal number ++ rest) }
{
    let Some(digit) = digit_of(bytes[FITTING_DIGITS]) else {
        return Some((value, FITTING_DIGITS));
    };
    let number = value.checked_mul(10)?.checked_add(digit)?;
    let len = FITTING_DIGITS + 1;
    if len < bytes.len() && bytes[len].is_ascii_digit() {
        return None;
    }
    Some((number, len))
}

// The value of a digit. It is wide from the start, so that adding it needs no further step.
#[inline(always)]
fn digit_of(byte: u8) -> Option<u64>
    ensures digit { IfSome result (λ digit. IsInRange 48 57 byte × (digit ≡ byte - 48)) }
    ensures none { IfNone result (IsInRange 48 57 byte → ⊥) }
{
    let digit = u64::from(byte).wrapping_sub(u64::from(b'0'));
    if digit < 10 { Some(digit) } else { None }
}
