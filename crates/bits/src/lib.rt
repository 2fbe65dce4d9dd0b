// Numbers in the bit fields of a file, most significant bit first.
#![tactic(auto)]

ghost use Rattle.std.specs.Prelude.{◌≡◌, ◌+◌, ◌^◌, ◌<◌, min};
ghost use Rattle.bits.specs.Fields.{bit, field};

// Bit `k` of those that begin at bit `at`: 1 or 0, and 0 past the file's end.
fn read_bit(file: &[u8], at: usize, k: usize) -> u16
    requires { k < 16 }
    ensures { result ≡ bit file.now (at + k) }
{
    // at + k could overflow; counted from the start of its byte it cannot
    let place = at % 8 + k;
    file.get(at / 8 + place / 8)
        .map_or(0, |byte| u16::from((*byte >> (7 - place % 8)) % 2))
}

// The number in the `width` bits from bit `at` on. A width above 16 counts as 16.
#[tactic(auto, using(crate::proofs::Laws::field_lt))]
pub fn read_field(file: &[u8], at: usize, width: usize) -> u16
    ensures is { result ≡ field file.now at (min width 16) }
    ensures small { result < 2 ^ min width 16 }
{
    let mut number = 0u16;
    for k in 0..width.min(16) {
        number = number * 2 + read_bit(file, at, k);
    }
    number
}
