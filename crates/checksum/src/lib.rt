// Checksum: the sum of a block's bytes, and whether it shows the block to be damaged. The rule stands in specs/Checksum.
#![tactic(auto)]

ghost use Rattle.std.specs.Prelude.{◌≡◌, ◌%◌, List};
ghost use Rattle.checksum.specs.Checksum.{sum_of, damaged as Checksum·damaged};

// The sum of bytes, modulo 256.
pub fn total(bytes: &[u8]) -> u8
    ensures { result ≡ sum_of bytes.now % 256 }
{
    let mut sum: u8 = 0;
    let mut i = 0;
    while i < bytes.len() {
        sum = std::num::wrapping_add_u8(sum, bytes[i]);
        i += 1;
    }
    sum
}

// Whether a block is damaged. Only one with A5h is summed, over a part whose length the compiler knows.
pub fn damaged(block: &[u8]) -> bool
    ensures { result ≡ Checksum·damaged block.now }
{
    if block.len() != 512 {
        return false;
    }
    if block[510] != 0xA5 {
        return false;
    }
    total(&block[..512]) != 0
}
