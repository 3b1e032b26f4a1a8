// Roll: up to 64 IDENTIFY blocks in one buffer, a row number for each, and how many different drives they are. The rule stands
// in specs/Roll.
#![tactic(auto)]

ghost use Rattle.std.specs.Prelude.{◌≡◌, List, ℕ, ◌+◌, ◌*◌, ◌≤◌, ◌<◌, length, get_or, take, drop};
ghost use Rattle.checksum.specs.Checksum.{any_damaged};
ghost use Rattle.roll.specs.Roll.{blocks_in, outcome, roll as Roll·roll};
ghost use Rattle.roll.specs.Helpers.{Found, Rolled, next_row};

// What comes back: the refusal's number or 0, how many blocks there are, and how many drives.
#[repr(C)]
#[derive(Clone, Copy)]
pub struct Counted {
    pub number: u8,
    pub blocks: u16,
    pub drives: u16,
}

// Block i of a run.
pub fn block_at(bytes: &[u8], i: usize) -> &[u8]
    requires { 512 * i + 512 ≤ length bytes.now }
    ensures block { result.now ≡ take 512 (drop (512 * i) bytes.now) }
    ensures whole { length result.now ≡ 512 }
{
    let from = 512 * i;
    &bytes[from..from + 512]
}

// The place of the first block of the same drive as block i: i itself where none before it is.
fn first_of(bytes: &[u8], i: usize) -> usize
    requires { 512 * i + 512 ≤ length bytes.now }
    ensures { Found bytes.now i result }
{
    let block = block_at(bytes, i);
    let named = identify::carries_name(block);
    let mut j = 0;
    while j < i {
        if drive::same_drive(block_at(bytes, j), block, named) {
            return j;
        }
        j += 1;
    }
    i
}

// A block's row, and how many drives there are with it.
#[derive(Clone, Copy)]
struct Row {
    row: u16,
    drives: u16,
}

// The row of block i, whose drive's first block is j: that block's row, or the next number.
fn row_of(rows: &[u16], j: usize, i: usize, drives: u16) -> Row
    requires { (j ≤ i) × (i < length rows.now) × (drives < 64) }
    ensures { result ≡ next_row rows.now j i drives }
{
    if j < i {
        return Row {
            row: rows[j],
            drives,
        };
    }
    Row {
        row: drives + 1,
        drives: drives + 1,
    }
}

// Writes a row for each block, and gives the number of drives.
fn put_rows(bytes: &[u8], count: usize, rows: &mut [u16]) -> u16
    requires { (512 * count ≤ length bytes.now) × (count ≤ length rows.old) × (count ≤ 64) }
    ensures { Rolled bytes.now count rows.old rows.new result }
{
    let mut drives: u16 = 0;
    let mut i = 0;
    while i < count {
        let next = row_of(rows, first_of(bytes, i), i, drives);
        rows[i] = next.row;
        drives = next.drives;
        i += 1;
    }
    drives
}

// Whether some block of a run is damaged.
fn any_damaged(bytes: &[u8], count: usize) -> bool
    requires { 512 * count ≤ length bytes.now }
    ensures { result ≡ any_damaged (blocks_in count bytes.now) }
{
    let mut asked = 0;
    while asked < count {
        if checksum::damaged(block_at(bytes, asked)) {
            return true;
        }
        asked += 1;
    }
    false
}

// The roll of a run of blocks.
pub fn roll(bytes: &[u8], rows: &mut [u16]) -> Counted
    ensures { outcome result rows.new ≡ Roll·roll bytes.now rows.old }
{
    if bytes.len() % 512 != 0 {
        return refused(1);
    }
    if 32768 < bytes.len() {
        return refused(1);
    }
    let count = bytes.len() / 512;
    if rows.len() < count {
        return refused(1);
    }
    if any_damaged(bytes, count) {
        return refused(18);
    }
    let drives = put_rows(bytes, count, rows);
    Counted {
        number: 0,
        blocks: count as u16,
        drives,
    }
}

fn refused(number: u8) -> Counted
    ensures { result ≡ record { number = number; blocks = 0; drives = 0 } }
{
    Counted {
        number,
        blocks: 0,
        drives: 0,
    }
}
