// Pages: standard data and pages 00h, 80h and 89h, one function a page. Each writes what fits, straight to its place. The
// rules stand in specs/Page.
#![tactic(auto)]

ghost use Rattle.std.specs.Prelude.{◌≡◌, Bool, cond, List, ◌+◌, length, take, replicate};
ghost use Rattle.room.specs.Room.{Wrote};
ghost use Rattle.rules.specs.Bits.{bit};
ghost use Rattle.identify.specs.Block.{word, model};
ghost use Rattle.pages.specs.Page.{standard_head, standard, page00, page80, information_head, information_code, page89, type_byte, command_code, block_or_zeros};
ghost use Rattle.pages.specs.Helpers.{WholeOrNone};

// RMB, the removable medium bit of standard data.
fn removable(block: &[u8]) -> u8
    ensures { result ≡ cond (bit 7 (word block.now 0)) 0x80 0x00 }
{
    if identify::word(block, 0) / 128 % 2 == 1 {
        return 0x80;
    }
    0x00
}

// The first 16 bytes of the model, as they stand in the block.
pub fn product(block: &[u8]) -> &[u8]
    requires { length block.now ≡ 512 }
    ensures { result.now ≡ take 16 (model block.now) }
{
    &identify::model(block)[..16]
}

// Standard data up to its product text: byte 1 RMB, 2 VERSION, 3 RESPONSE DATA FORMAT, 4 ADDITIONAL LENGTH, 8 VENDOR IDENTIFICATION.
pub fn standard_head(block: &[u8]) -> [u8; 16]
    ensures { result ≡ standard_head block.now }
{
    [
        0x00u8,
        removable(block),
        0x05u8,
        0x02u8,
        0x1Fu8,
        0x00u8,
        0x00u8,
        0x00u8,
        b'A',
        b'T',
        b'A',
        b' ',
        b' ',
        b' ',
        b' ',
        b' ',
    ]
}

// Standard data.
pub fn put_standard(room: &mut [u8], block: &[u8])
    requires { length block.now ≡ 512 }
    ensures { Wrote room.old 0 (standard block.now) room.new }
{
    let head = standard_head(block);
    room::put_short(room, 0, &head);
    // PRODUCT IDENTIFICATION
    text_writers::put_turned(room, 16, product(block));
    // PRODUCT REVISION LEVEL
    texts::put_revision(room, 32, identify::firmware(block));
}

pub const STANDARD_SIZE: usize = 36;

// Page 00h, the pages that the board serves.
pub const SUPPORTED: [u8; 8] = [0x00, 0x00, 0x00, 0x04, 0x00, 0x80, 0x83, 0x89];

pub fn put_supported(room: &mut [u8])
    ensures { Wrote room.old 0 page00 room.new }
{
    room::put_short(room, 0, &SUPPORTED);
}

pub const SUPPORTED_SIZE: usize = 8;

// What page 80h starts with: PAGE CODE, PAGE LENGTH.
pub const SERIAL_HEAD: [u8; 4] = [0x00, 0x80, 0x00, 0x14];

// Page 80h, the serial number.
pub fn put_serial(room: &mut [u8], block: &[u8])
    requires { length block.now ≡ 512 }
    ensures { Wrote room.old 0 (page80 block.now) room.new }
{
    room::put_short(room, 0, &SERIAL_HEAD);
    text_writers::put_spaced(room, 4, identify::serial(block));
}

pub const SERIAL_SIZE: usize = 24;

fn type_byte(packet: bool, block: &[u8]) -> u8
    ensures { result ≡ type_byte packet block.now }
{
    if packet {
        if block.len() == 0 {
            return 0x00;
        }
        return (identify::word(block, 0) / 256 % 32) as u8;
    }
    0x00
}

fn command_code(packet: bool) -> u8
    ensures { result ≡ command_code packet }
{
    if packet {
        return 0xA1;
    }
    0xEC
}

// Page 89h up to its texts.
pub fn information_head(packet: bool, block: &[u8]) -> [u8; 8]
    ensures { result ≡ information_head packet block.now }
{
    [
        type_byte(packet, block),
        0x89u8,
        0x02u8,
        0x38u8,
        0x00u8,
        0x00u8,
        0x00u8,
        0x00u8,
    ]
}

// What stands before the block in it: the COMMAND CODE.
pub fn information_code(packet: bool) -> [u8; 4]
    ensures { result ≡ information_code packet }
{
    [command_code(packet), 0x00u8, 0x00u8, 0x00u8]
}

// 512 bytes of zero, where the drive gave no block.
const ZEROS: [u8; 512] = [0x00; 512];

fn put_zeros(room: &mut [u8], at: usize)
    ensures { Wrote room.old at (replicate 512 0x00) room.new }
{
    room::put(room, at, &ZEROS);
}

// The 512 bytes of a block, as a part of known length.
fn whole(block: &[u8]) -> &[u8]
    requires { length block.now ≡ 512 }
    ensures bytes { result.now ≡ block.now }
    ensures size { length result.now ≡ 512 }
{
    &block[..512]
}

fn put_block(room: &mut [u8], at: usize, block: &[u8])
    requires { WholeOrNone block.now }
    ensures { Wrote room.old at (block_or_zeros block.now) room.new }
{
    if block.len() == 0 {
        put_zeros(room, at);
        return;
    }
    room::put(room, at, whole(block));
}

// Page 89h, ATA information.
pub fn put_information(room: &mut [u8], packet: bool, texts: &[u8], signature: &[u8], block: &[u8])
    requires { (length texts.now ≡ 28) × ((length signature.now ≡ 20) × WholeOrNone block.now) }
    ensures { Wrote room.old 0 (page89 packet texts.now signature.now block.now) room.new }
{
    let head = information_head(packet, block);
    room::put_short(room, 0, &head);
    // SAT VENDOR IDENTIFICATION, SAT PRODUCT IDENTIFICATION, SAT PRODUCT REVISION LEVEL
    room::put_short(room, 8, texts);
    // ATA DEVICE SIGNATURE
    room::put_short(room, 36, signature);
    let code = information_code(packet);
    room::put_short(room, 56, &code);
    // ATA IDENTIFY DEVICE DATA
    put_block(room, 60, block);
}

pub fn information_size(block: &[u8]) -> usize
    ensures { result ≡ 60 + length (block_or_zeros block.now) }
{
    if block.len() == 0 {
        return 572;
    }
    60 + block.len()
}
