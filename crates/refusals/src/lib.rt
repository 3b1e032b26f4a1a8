// Refusals: the table, by number, and what a refusal answers: its status, and the sense data of its row. The rules stand in
// specs/Refusal.
#![tactic(auto)]

ghost use Rattle.std.specs.Prelude.{◌≡◌, List, ◌≤◌, length};
ghost use Rattle.refusals.specs.Refusal.{row_of, three_bytes, refused_sense};
ghost use Rattle.refusals.specs.Helpers.{Roomy};

pub const GOOD: u8 = 0x00;

pub const CHECK_CONDITION: u8 = 0x02;

pub const BUSY: u8 = 0x08;
// No status: a number that SCSI gives to none.
pub const NONE: u8 = 0xFF;

// Key, ASC and ASCQ of each refusal, by its number; key 0 where a refusal has none.
const TABLE: [[u8; 3]; 24] = [
    [0x00, 0x00, 0x00],
    [0x00, 0x00, 0x00],
    [0x05, 0x24, 0x00],
    [0x05, 0x20, 0x00],
    [0x05, 0x24, 0x00],
    [0x05, 0x24, 0x00],
    [0x02, 0x04, 0x00],
    [0x0B, 0x00, 0x00],
    [0x00, 0x00, 0x00],
    [0x05, 0x24, 0x00],
    [0x00, 0x00, 0x00],
    [0x05, 0x24, 0x00],
    [0x05, 0x24, 0x00],
    [0x05, 0x24, 0x00],
    [0x05, 0x24, 0x00],
    [0x00, 0x00, 0x00],
    [0x00, 0x00, 0x00],
    [0x00, 0x00, 0x00],
    [0x00, 0x00, 0x00],
    [0x05, 0x24, 0x00],
    [0x05, 0x24, 0x00],
    [0x00, 0x00, 0x00],
    [0x00, 0x00, 0x00],
    [0x00, 0x00, 0x00],
];

// Key, ASC and ASCQ of a refusal: its row of the array, and row 0 past it. Each index is a number that the compiler knows; where it
// does not, it lays out the whole array on the stack.
#[tactic(auto, unfolding(crate::specs::Refusal::row_of))]
fn code(number: u8) -> [u8; 3]
    ensures { result ≡ three_bytes (row_of number) }
{
    let rows = TABLE;
    match number {
        1 => rows[1],
        2 => rows[2],
        3 => rows[3],
        4 => rows[4],
        5 => rows[5],
        6 => rows[6],
        7 => rows[7],
        8 => rows[8],
        9 => rows[9],
        10 => rows[10],
        11 => rows[11],
        12 => rows[12],
        13 => rows[13],
        14 => rows[14],
        15 => rows[15],
        16 => rows[16],
        17 => rows[17],
        18 => rows[18],
        19 => rows[19],
        20 => rows[20],
        21 => rows[21],
        22 => rows[22],
        23 => rows[23],
        _ => rows[0],
    }
}

// What a refusal answers: it writes the sense bytes of its row, or nothing, and gives the row's status.
pub fn refuse(sense: &mut [u8], form: u8, number: u8) -> u8
    requires { Roomy number (length sense.old) }
    ensures status { result ≡ (row_of number).status }
    ensures sense { sense.new ≡ refused_sense form number sense.old }
{
    let row = code(number);
    if row[0] != 0 {
        sense::put_code(sense, form, row[0], row[1], row[2]);
        return CHECK_CONDITION;
    }
    if number == 10 {
        return BUSY;
    }
    NONE
}
