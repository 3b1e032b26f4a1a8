// Numbers in a line.
ghost use Rattle.std.specs.Prelude.{◌≡◌, ◌≤◌};
ghost use Rattle.order_words.specs.Number.{digit_of, in_base, number_of};

// What a byte stands for as a digit of a base.
#[tactic(auto, using(crate::proofs::Numbers::digit_is))]
fn digit(base: u32, byte: u8) -> Option<u32>
    requires { (2 ≤ base) × (base ≤ 16) }
    ensures { result ≡ digit_of base byte }
{
    char::from(byte).to_digit(base)
}

// The number that digits of a base make; none where there are none, or a byte is no digit.
fn in_base(base: u32, text: &[u8]) -> Option<u64>
    requires { (2 ≤ base) × (base ≤ 16) }
    ensures { result ≡ in_base base text.now }
{
    if text.is_empty() {
        return None;
    }
    let mut number: u64 = 0;
    for byte in text {
        let digit = digit(base, *byte)?;
        number = number
            .saturating_mul(u64::from(base))
            .saturating_add(u64::from(digit));
    }
    Some(number)
}

// The number that a text is, decimal, or hexadecimal behind 0x. One that 64 bits do not hold is the largest that they do.
#[tactic(auto, unfolding(crate::specs::Number::number_of))]
pub fn number_of(text: &[u8]) -> Option<u64>
    ensures { result ≡ number_of text.now }
{
    match text.strip_prefix(b"0x") {
        Some(digits) => in_base(16, digits),
        None => in_base(10, text),
    }
}
