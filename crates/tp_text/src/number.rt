//! Numbers as words spell them.

ghost use Rattle.std.specs.Prelude.{◌≡◌, ◌≢◌, ◌≤◌, ◌+◌, ◌*◌, ◌^◌, take, drop, length, true, MatchOption};
ghost use Rattle.std.specs.List.{list_all};
ghost use Rattle.std.specs.Char.{is_ascii_digit};
ghost use Rattle.std.specs.Str.Parse.{digits_value};
ghost use Rattle.tp_text.specs.Numbers.{before_point, after_point, all_zeros, is_natural, signed, whole_of, natural_below, exact, has_time_form, ticks_of};
ghost use Rattle.tp_text.specs.declared.number.Scale.{Scale};
ghost use Rattle.tp_text.specs.Scales.{scale_ticks};

use crate::lexing::ascii_text;

/// How many ticks one unit of time has.
#[derive(Clone, Copy, Debug, PartialEq, Eq)]
pub enum Scale {
    One,
    Ten,
    Hundred,
    Thousand,
}

impl Scale {
    /// The scale with so many ticks to a unit: 1, 10, 100 or 1000.
    pub fn from_number(ticks: u32) -> Option<Scale>
        ensures { MatchOption result
            ((scale : Scale) → scale_ticks scale ≢ ticks) (λ scale. scale_ticks scale ≡ ticks) }
    {
        match ticks {
            1 => Some(Scale::One),
            10 => Some(Scale::Ten),
            100 => Some(Scale::Hundred),
            1000 => Some(Scale::Thousand),
            _ => None,
        }
    }

    /// The ticks of a unit.
    pub fn ticks(self) -> u32
        ensures { result ≡ scale_ticks self }
    {
        match self {
            Scale::One => 1,
            Scale::Ten => 10,
            Scale::Hundred => 100,
            Scale::Thousand => 1000,
        }
    }
}

// Where the first '.' stands, or the length.
fn point_at(bytes: &[u8]) -> usize
    ensures in_range { result ≤ length bytes.now }
    ensures front { take result bytes.now ≡ before_point bytes.now }
    ensures rest { drop (result + 1) bytes.now ≡ after_point bytes.now }
{
    for (n, b) in bytes.iter().enumerate() {
        if *b == b'.' {
            return n;
        }
    }
    bytes.len()
}

fn fraction(bytes: &[u8], point: usize) -> &[u8]
    requires { point ≤ length bytes.now }
    ensures { result.now ≡ drop (point + 1) bytes.now }
{
    if point < bytes.len() {
        &bytes[point + 1..]
    } else {
        &[]
    }
}

fn all_zeros(bytes: &[u8]) -> bool
    ensures { result ≡ all_zeros bytes.now }
{
    bytes.iter().all(|b| *b == b'0')
}

fn all_digits(bytes: &[u8]) -> bool
    ensures { result ≡ list_all is_ascii_digit bytes.now }
{
    bytes.iter().all(|b| b.is_ascii_digit())
}

fn is_natural(bytes: &[u8]) -> bool
    ensures { result ≡ is_natural bytes.now }
{
    match bytes {
        [] => false,
        [_, ..] => all_digits(bytes),
    }
}

#[tactic(auto, unfolding(crate::specs::Numbers::signed))]
fn signed(bytes: &[u8]) -> Option<i64>
    ensures { result ≡ signed bytes.now }
{
    let [first, rest @ ..] = bytes else {
        return None;
    };
    if *first == b'-' {
        if is_natural(rest) {
            ascii_text(bytes).parse::<i64>().ok()
        } else {
            None
        }
    } else if is_natural(bytes) {
        ascii_text(bytes).parse::<i64>().ok()
    } else {
        None
    }
}

/// The whole number that a word spells.
pub fn read_whole(word: &str) -> Option<i64>
    ensures { result ≡ whole_of word.now }
{
    let bytes = word.as_bytes();
    let point = point_at(bytes);
    if !all_zeros(fraction(bytes, point)) {
        return None;
    }
    signed(&bytes[..point])
}

/// Whether a word has the form of a time: digits, or digits, `.`, digits.
pub fn has_time_form(word: &str) -> bool
    ensures { result ≡ has_time_form word.now }
{
    let bytes = word.as_bytes();
    let point = point_at(bytes);
    is_natural(&bytes[..point]) && (point == bytes.len() || is_natural(fraction(bytes, point)))
}

// The number that digits make, if it fits.
fn natural(digits: &[u8]) -> Option<u32>
    requires { is_natural digits.now ≡ true }
    ensures { result ≡ natural_below (2 ^ 32) digits.now }
{
    ascii_text(digits).parse::<u32>().ok()
}

// The ticks of a fraction: its first digit counts tenths of a unit. Digits finer than a tick must
// be zeros.
fn fraction_ticks(digits: &[u8], scale: Scale) -> Option<u32>
    requires { list_all is_ascii_digit digits.now ≡ true }
    ensures { result
        ≡ exact (digits_value 10 digits.now * scale_ticks scale) (10 ^ length digits.now) }
{
    let mut unit = scale.ticks();
    let mut ticks = 0;
    for digit in digits {
        unit /= 10;
        if unit == 0 && *digit != b'0' {
            return None;
        }
        ticks += u32::from(*digit - b'0') * unit;
    }
    Some(ticks)
}

/// The ticks that a word spells: its value times the ticks of a unit. `None` if it has not the form
/// of a time, or its ticks are not whole or do not fit.
pub fn read_ticks(word: &str, scale: Scale) -> Option<u32>
    ensures { result ≡ ticks_of (scale_ticks scale) word.now }
{
    if !has_time_form(word) {
        return None;
    }
    let bytes = word.as_bytes();
    let point = point_at(bytes);
    let whole = natural(&bytes[..point])?;
    let part = fraction_ticks(fraction(bytes, point), scale)?;
    whole.checked_mul(scale.ticks())?.checked_add(part)
}
