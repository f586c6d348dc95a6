ghost use Rattle.std.specs.Prelude.{◌≡◌, ℕ, ◌+◌, ◌^◌, ◌<◌, ◌≤◌, ◌++◌, ◌-◌, drop, All, MatchOption};
ghost use Rattle.nova_word.specs.Numbers.{octal_digits, octal_width, value_of, IsDigit, IsFirstBad, ReadsNumber};
ghost use Rattle.nova_word.specs.Numbers.{is_digit, number_read, DigitsReadBack, HasOneAnswer, AnswerIsComputed};

/// Why a text is no number.
#[derive(Clone, Copy, Debug, PartialEq, Eq)]
pub enum NumberFault {
    /// There is no digit.
    Empty,
    /// The first byte that is no digit of the base stands at this place, counted from 0.
    BadDigit(usize),
    /// All its bytes are digits, and the number is larger than its reader takes.
    TooLarge,
}

/// Writes that many octal digits of `n` first into `out`, with leading zeros, and answers how many.
pub fn write_octal(n: u32, digits: usize, out: &mut [u8; 12]) -> usize
    requires digits { (0 < digits) × (digits ≤ 11) }
    requires fits { n < 8 ^ digits }
    ensures count { result ≡ digits }
    ensures text { out.new ≡ octal_digits digits n ++ drop digits out.old }
{
    let mut rest = n;
    for place in (0..digits).rev() {
        out[place] = b'0' + (rest % 8) as u8;
        rest /= 8;
    }
    digits
}

/// How many octal digits a number has: 0 has one.
pub fn octal_width(n: u32) -> usize
    ensures exact { result ≡ octal_width n }
    ensures fits { n < 8 ^ result }
    ensures range { (0 < result) × (result ≤ 11) }
{
    if n < 8 { 1 } else { 1 + octal_width(n / 8) }
}

/// The number of a text of octal digits, up to 2^32 - 1.
///
/// Leading zeros are taken. The leftmost fault is answered; a number that is too long for any type is
/// `TooLarge`.
pub fn read_octal(text: &[u8]) -> Result<u32, NumberFault>
    ensures number { ReadsNumber 8 (2 ^ 32 - 1) text.now result }
    ensures exact { result ≡ number_read 8 (2 ^ 32 - 1) text.now }
{
    let n = read_number(8, u64::from(u32::MAX), text)?;
    Ok(n as u32)
}

/// The number of a text of decimal digits, up to 2^63.
///
/// Leading zeros are taken. The leftmost fault is answered; a number that is too long for any type is
/// `TooLarge`.
pub fn read_decimal(text: &[u8]) -> Result<u64, NumberFault>
    ensures number { ReadsNumber 10 (2 ^ 63) text.now result }
    ensures exact { result ≡ number_read 10 (2 ^ 63) text.now }
{
    read_number(10, 1 << 63, text)
}

// The number of a text of digits of a base, up to the largest that is taken.
fn read_number(base: u64, largest: u64, text: &[u8]) -> Result<u64, NumberFault>
    requires base { (0 < base) × (base ≤ 10) }
    requires largest { largest ≤ 2 ^ 63 }
    ensures { ReadsNumber base largest text.now result }
{
    if text.is_empty() {
        return Err(NumberFault::Empty);
    }
    if let Some(place) = first_bad_digit(base, text) {
        return Err(NumberFault::BadDigit(place));
    }
    value_up_to(base, largest, text).ok_or(NumberFault::TooLarge)
}

pub(crate) fn is_digit(base: u64, b: u8) -> bool
    requires { base ≤ 10 }
    ensures { result ≡ is_digit base b }
{
    b >= b'0' && u64::from(b) < 48 + base
}

// The place of the first byte that is no digit of the base.
fn first_bad_digit(base: u64, text: &[u8]) -> Option<usize>
    requires { base ≤ 10 }
    ensures { MatchOption result (All (IsDigit base) text.now) (IsFirstBad base text.now) }
{
    text.iter().position(|b| !is_digit(base, *b))
}

// The number of a text of digits, where it is not above the largest.
fn value_up_to(base: u64, largest: u64, text: &[u8]) -> Option<u64>
    requires base { (0 < base) × (base ≤ 10) }
    requires largest { largest ≤ 2 ^ 63 }
    requires digits { All (IsDigit base) text.now }
    ensures { MatchOption
        result
        (largest < value_of base text.now)
        (λ n. (value_of base text.now ≡ n) × (n ≤ largest)) }
{
    let mut n = 0u64;
    for b in text {
        let longer = u128::from(base) * u128::from(n) + u128::from(*b - b'0');
        if longer > u128::from(largest) {
            return None;
        }
        n = longer as u64;
    }
    Some(n)
}

/// The law that ties `write_octal` to `read_octal`: as many digits as were asked for, and where they are
/// enough for the number, they read back as it.
pub fn digits_read_back()
    ensures { DigitsReadBack }
{}

/// The law that a text has one answer, and that it is the one that is computed.
pub fn texts_have_one_answer()
    ensures one { (base largest : ℕ) → HasOneAnswer base largest }
    ensures computed { (base largest : ℕ) → AnswerIsComputed base largest }
{}
