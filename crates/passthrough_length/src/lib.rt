// Pass-through length: how many bytes of data a pass-through command asks for. A count of blocks and a count of bytes are kept apart
// until the one multiplication; a block's size is a count of bytes, too. The rules stand in specs/Length.
#![tactic(auto)]

ghost use Rattle.std.specs.Prelude.{◌≡◌, ◌<◌, ◌*◌, ◌^◌};
ghost use Rattle.passthrough_fields.specs.Helpers.{Whole, sent_of};
ghost use Rattle.passthrough_length.specs.Helpers.{Lent};
ghost use Rattle.passthrough_length.specs.Length.{bytes_in, block_size, in_sectors, lacking as Length·lacking, length_of};

use passthrough_fields::sent::Sent;

// A count of blocks.
#[derive(Clone, Copy)]
pub struct Blocks(pub u16);

// A count of bytes.
#[derive(Clone, Copy)]
pub struct Bytes(pub u64);

impl Blocks {
    // The bytes of blocks of a size: the one multiplication, which 64 bits hold.
    pub fn bytes(self, size: Bytes) -> Bytes
        requires { size.0 < 2 ^ 34 }
        ensures { result.0 ≡ size.0 * self.0 }
    {
        Bytes(size.0 * (self.0 as u64))
    }
}

// The size of the blocks that a command counts. The sectors' is read from a part of the block whose length the compiler knows.
pub fn block_size(later: bool, block: &[u8], command: &[u8]) -> Bytes
    requires { Whole command.now × Lent later block.now }
    ensures size { result.0 ≡ block_size later block.now command.now }
    ensures width { result.0 < 2 ^ 34 }
{
    if later & passthrough_fields::t_type(command) & (block.len() == 512) {
        return Bytes(identify::sector_size(&block[..512]));
    }
    Bytes(512)
}

// Whether a command counts logical sectors, where T_TYPE is looked at.
fn in_sectors(command: &[u8]) -> bool
    requires { Whole command.now }
    ensures { result ≡ in_sectors command.now }
{
    let t = passthrough_fields::t_length(command);
    passthrough_fields::t_type(command)
        & passthrough_fields::byte_block(command)
        & ((t == 1) | (t == 2))
}

// Whether their size is needed, and there is no block that tells it.
pub fn lacking(later: bool, block: &[u8], command: &[u8]) -> bool
    requires { Whole command.now }
    ensures { result ≡ Length·lacking later block.now command.now }
{
    if later & (block.len() == 0) {
        return in_sectors(command);
    }
    false
}

// A field's number, as BYTE_BLOCK counts it.
fn counted(blocks: bool, size: Bytes, number: u16) -> Bytes
    requires { size.0 < 2 ^ 34 }
    ensures { result.0 ≡ bytes_in blocks size.0 number }
{
    if blocks {
        let count = Blocks(number);
        return count.bytes(size);
    }
    Bytes(number as u64)
}

// The length in bytes that a command asks for, in blocks of a size, from what it sends.
pub fn in_bytes(size: Bytes, command: &[u8], sent: Sent, declared: u32) -> Bytes
    requires { Whole command.now × (size.0 < 2 ^ 34) × (sent ≡ sent_of command.now) }
    ensures { result.0 ≡ length_of size.0 command.now declared }
{
    let t = passthrough_fields::t_length(command);
    if t == 0 {
        return Bytes(0);
    }
    let blocks = passthrough_fields::byte_block(command);
    if t == 1 {
        return counted(blocks, size, sent.features);
    }
    if t == 2 {
        return counted(blocks, size, sent.count);
    }
    Bytes(declared as u64)
}
