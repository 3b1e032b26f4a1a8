// Identify: what the board reads in a drive's IDENTIFY block. The rules stand in specs/: Block (words and fields), Names (whether it
// carries a name), Sector (the size of a logical sector) and Bytes (the same bytes).
#![tactic(auto)]

ghost use Rattle.std.specs.Prelude.{◌≡◌, List, ◌<◌, ◌^◌, length};
ghost use Rattle.identify.specs.Block.{word as Block·word, serial as Block·serial, firmware as Block·firmware, model as Block·model, name as Block·name};
ghost use Rattle.identify.specs.Bytes.{equal};
ghost use Rattle.identify.specs.Names.{some_bit, says_named, carries_name};
ghost use Rattle.identify.specs.Sector.{tells_size, sector_size};

fn wide(byte: u8) -> u16
    ensures { result ≡ byte }
{
    byte as u16
}

// Word w of a block.
pub fn word(block: &[u8], w: u8) -> u16
    ensures { result ≡ Block·word block.now w }
{
    let low = 2 * (w as usize);
    wide(rules::byte(block, low)) + 256 * wide(rules::byte(block, low + 1))
}

// The serial number as it stands in the block.
pub fn serial(block: &[u8]) -> &[u8]
    requires { length block.now ≡ 512 }
    ensures { result.now ≡ Block·serial block.now }
{
    &block[20..40]
}

// The firmware text as it stands in the block.
pub fn firmware(block: &[u8]) -> &[u8]
    requires { length block.now ≡ 512 }
    ensures { result.now ≡ Block·firmware block.now }
{
    &block[46..54]
}

// The model as it stands in the block.
pub fn model(block: &[u8]) -> &[u8]
    requires { length block.now ≡ 512 }
    ensures { result.now ≡ Block·model block.now }
{
    &block[54..94]
}

// The name as it stands in the block.
pub fn name(block: &[u8]) -> &[u8]
    requires { length block.now ≡ 512 }
    ensures { result.now ≡ Block·name block.now }
{
    &block[216..224]
}

// Whether some bit of some byte is one.
pub fn some_bit(bytes: &[u8]) -> bool
    ensures { result ≡ some_bit bytes.now }
{
    let mut i = 0;
    while i < bytes.len() {
        if bytes[i] != 0 {
            return true;
        }
        i += 1;
    }
    false
}

// Whether word 87 says that there is a name.
pub fn says_named(w: u16) -> bool
    ensures { result ≡ says_named w }
{
    (w / 16384 % 4 == 1) & (w / 256 % 2 == 1)
}

// Whether a block carries a world wide name.
pub fn carries_name(block: &[u8]) -> bool
    requires { length block.now ≡ 512 }
    ensures { result ≡ carries_name block.now }
{
    if some_bit(name(block)) {
        return says_named(rules::pair(block[175], block[174]));
    }
    false
}

// Whether two runs of bytes are the same.
pub fn same_bytes(a: &[u8], b: &[u8]) -> bool
    ensures { result ≡ equal a.now b.now }
{
    if a.len() != b.len() {
        return false;
    }
    let mut i = 0;
    while i < a.len() {
        if a[i] != b[i] {
            return false;
        }
        i += 1;
    }
    true
}

// Whether word 106 says that words 117 and 118 tell the size of a logical sector.
fn tells_size(w: u16) -> bool
    ensures { result ≡ tells_size w }
{
    (w / 16384 % 4 == 1) & (w / 4096 % 2 == 1)
}

// The bytes of a logical sector, which 34 bits hold.
pub fn sector_size(block: &[u8]) -> u64
    ensures size { result ≡ sector_size block.now }
    ensures width { result < 2 ^ 34 }
{
    if tells_size(word(block, 106)) {
        let low = word(block, 117) as u64;
        let high = word(block, 118) as u64;
        return 2 * (low + 65536 * high);
    }
    512
}
