// Tally: the census of a fleet's drives, which counts IDENTIFY blocks by their classes as they are fed one at a time. The rule stands
// in specs/Census; specs/Fleet and proofs/Fleet have what it says of many blocks.
#![tactic(auto)]

ghost use Rattle.std.specs.Prelude.{◌≡◌, List, ◌≤◌, length};
ghost use Rattle.checksum.specs.Checksum.{sum_of};
ghost use Rattle.tally.specs.Census.{empty as Census·empty, uneven as Census·uneven, closed as Census·closed, refusal_of, feed as Census·feed};

// How many blocks were fed; how many of them carry a name and how many do not; and how many are of each class: `udma` has Ultra DMA
// modes 0 to 6 and none behind them, `version` the major versions 1 to 14 and none behind them.
#[repr(C)]
#[derive(Clone, Copy)]
pub struct Census {
    pub blocks: u16,
    pub named: u16,
    pub unnamed: u16,
    pub udma: [u16; 8],
    pub version: [u16; 15],
}

// What comes back of a block: the census afterwards, and the refusal's number or 0.
#[repr(C)]
#[derive(Clone, Copy)]
pub struct Fed {
    pub next: Census,
    pub number: u8,
}

// A census that has counted nothing.
pub fn empty() -> Census
    ensures { result ≡ Census·empty }
{
    Census {
        blocks: 0,
        named: 0,
        unnamed: 0,
        udma: [0; 8],
        version: [0; 15],
    }
}

fn wide(count: u16) -> u32
    ensures { result ≡ count }
{
    count as u32
}

// The sum of a grouping's counts.
fn total(counts: &[u16]) -> u32
    requires { length counts.now ≤ 15 }
    ensures { result ≡ sum_of counts.now }
{
    let mut sum: u32 = 0;
    let mut i = 0;
    while i < counts.len() {
        sum += wide(counts[i]);
        i += 1;
    }
    sum
}

// Whether some grouping does not sum to the blocks fed.
fn uneven(census: Census) -> bool
    ensures { result ≡ Census·uneven census }
{
    let udma = census.udma;
    let version = census.version;
    let blocks = wide(census.blocks);
    (wide(census.named) + wide(census.unnamed) != blocks)
        | (total(&udma) != blocks)
        | (total(&version) != blocks)
}

// 17: a census that no block can be counted in.
fn closed(census: Census) -> bool
    ensures { result ≡ Census·closed census }
{
    (census.blocks == 65535) | uneven(census)
}

// The refusal's number, and 0 where the block is counted.
fn refusal(census: Census, block: &[u8]) -> u8
    ensures { result ≡ refusal_of census block.now }
{
    if block.len() != 512 {
        return 1;
    }
    if closed(census) {
        return 17;
    }
    if checksum::damaged(block) {
        return 18;
    }
    0
}

// Feeds a block to a census, which counts it in its three classes. A class has no more blocks than the census, so that no count wraps.
// The counts are raised where they lie, and the census goes back under a name of its own, so that it is moved as a whole.
pub fn feed(mut census: Census, block: &[u8]) -> Fed
    ensures { result ≡ Census·feed census block.now }
{
    let number = refusal(census, block);
    if number == 0 {
        census.blocks += 1;
        if identify::carries_name(block) {
            census.named += 1;
        } else {
            census.unnamed += 1;
        }
        let mode = classes::ultra_dma(block) as usize;
        census.udma[mode] += 1;
        let version = classes::major_version(block) as usize - 1;
        census.version[version] += 1;
    }
    let next = census;
    Fed { next, number }
}
