// Sixteen bytes as two numbers. `build` has three ends, which the compiler makes one; there a byte that they give takes a register, and so
// does a number of eight bytes.
ghost use Rattle.std.specs.Prelude.{◌≡◌, [], ◌∷◌, ◌+◌, ◌*◌};
ghost use Rattle.builder.specs.Helpers.{eight_bytes, bytes_of};

// The first eight bytes and the others, each a number whose lowest byte is the first.
#[derive(Clone, Copy)]
pub struct Packed {
    pub first: u64,
    pub second: u64,
}

fn two_pairs(high: u16, low: u16) -> u32
    ensures { result ≡ 0x10000 * high + low }
{
    0x10000 * (high as u32) + (low as u32)
}

fn two_fours(high: u32, low: u32) -> u64
    ensures { result ≡ 0x100000000 * high + low }
{
    0x100000000 * (high as u64) + (low as u64)
}

// Eight bytes as a number.
pub fn eight(a: u8, b: u8, c: u8, d: u8, e: u8, f: u8, g: u8, h: u8) -> u64
    ensures { eight_bytes result ≡ a ∷ b ∷ c ∷ d ∷ e ∷ f ∷ g ∷ h ∷ [] }
{
    two_fours(
        two_pairs(rules::pair(h, g), rules::pair(f, e)),
        two_pairs(rules::pair(d, c), rules::pair(b, a)),
    )
}

// The bytes again.
pub fn bytes(packed: Packed) -> [u8; 16]
    ensures { result ≡ bytes_of packed }
{
    let a = packed.first;
    let b = packed.second;
    [
        (a % 256) as u8,
        (a / 0x100 % 256) as u8,
        (a / 0x10000 % 256) as u8,
        (a / 0x1000000 % 256) as u8,
        (a / 0x100000000 % 256) as u8,
        (a / 0x10000000000 % 256) as u8,
        (a / 0x1000000000000 % 256) as u8,
        (a / 0x100000000000000 % 256) as u8,
        (b % 256) as u8,
        (b / 0x100 % 256) as u8,
        (b / 0x10000 % 256) as u8,
        (b / 0x1000000 % 256) as u8,
        (b / 0x100000000 % 256) as u8,
        (b / 0x10000000000 % 256) as u8,
        (b / 0x1000000000000 % 256) as u8,
        (b / 0x100000000000000 % 256) as u8,
    ]
}
