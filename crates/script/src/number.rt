// The numbers of a line: 0 to 65,535 in decimal, without a leading zero.
ghost use Rattle.std.specs.Prelude.{◌≡◌, ◌<◌, ◌≤◌, true, length, decimal, IsTrue, ◌↔◌, slice_index};
ghost use Rattle.std.specs.Str.{all_ascii_digits};
ghost use Rattle.script.specs.Readings.{IsReading};

// No number of a script has more digits.
const MOST_DIGITS: usize = 5;

// Whether some digits are a zero before others.
fn has_leading_zero(digits: &[u8]) -> bool
    ensures { IsTrue result ↔ ((1 < length digits.now) × (slice_index digits.now 0 ≡ 48)) }
{
    matches!(digits, [b'0', _, ..])
}

// The number that a row of digits writes out; nothing for a leading zero or a number too large. This is a loop:
// `str::parse` wants text, and reading a line by it takes twice the time.
pub(crate) fn value_of(digits: &[u8]) -> Option<u16>
    requires { all_ascii_digits digits.now ≡ true }
    ensures { IsReading (λ v. (v ≤ 65535) × (digits.now ≡ decimal v)) result }
{
    if !(1..=MOST_DIGITS).contains(&digits.len()) || has_leading_zero(digits) {
        return None;
    }
    let mut value: u32 = 0;
    for digit in digits {
        value = 10 * value + u32::from(*digit - b'0');
    }
    u16::try_from(value).ok()
}
