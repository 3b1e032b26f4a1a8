// Classes: what a block is counted as in the census: its highest Ultra DMA mode and its highest major version. The rules stand in
// specs/Classes; by which name form a block is counted is the rule of `identify`.
#![tactic(auto)]

ghost use Rattle.std.specs.Prelude.{◌≡◌, List};
ghost use Rattle.classes.specs.Classes.{ultra_dma, major_version};
ghost use Rattle.classes.specs.Helpers.{Highest};

pub const NO_MODE: u8 = 7;

pub const NO_VERSION: u8 = 15;

// The highest one bit of a masked word, and `none` where it has none.
fn highest(masked: u16, none: u8) -> u8
    ensures { Highest masked none result }
{
    if masked == 0 {
        return none;
    }
    (15 - u16::leading_zeros(masked)) as u8
}

// The highest Ultra DMA mode, 0 to 6, or `NO_MODE`.
pub fn ultra_dma(block: &[u8]) -> u8
    ensures { result ≡ ultra_dma block.now }
{
    let modes = if identify::word(block, 53) / 4 % 2 == 1 {
        identify::word(block, 88) & 0x7F
    } else {
        0
    };
    highest(modes, NO_MODE)
}

// The highest major version, 1 to 14, or `NO_VERSION`.
pub fn major_version(block: &[u8]) -> u8
    ensures { result ≡ major_version block.now }
{
    let word = identify::word(block, 80);
    let versions = if word == 0xFFFF { 0 } else { word & 0x7FFE };
    highest(versions, NO_VERSION)
}
