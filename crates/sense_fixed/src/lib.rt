// The fixed form of sense data: 18 bytes, with the registers that are told in places of their own. The rules stand in specs/: Fixed, and
// Told (what stands beside key, ASC and ASCQ, in either form).
#![tactic(auto)]

ghost use Rattle.std.specs.Prelude.{◌≡◌, List, ◌≤◌, length};
ghost use Rattle.room.specs.Room.{Wrote};
ghost use Rattle.sense_fixed.specs.Told.{nothing, registers as told};
ghost use Rattle.sense_fixed.specs.Fixed.{fixed_sense, upper_bits, nonzero as Fixed·nonzero};

// Whether an upper register byte is not zero, where EXTEND shows it.
fn nonzero(extend: bool, byte: u8) -> bool
    ensures { result ≡ Fixed·nonzero extend byte }
{
    extend & (byte != 0)
}

// What is told of the upper bytes.
fn upper_bits(extend: bool, registers: &[u8]) -> u8
    requires { length registers.now ≡ 11 }
    ensures { result ≡ upper_bits extend registers.now }
{
    let count = nonzero(extend, registers[1]);
    let lba = nonzero(extend, registers[3])
        | nonzero(extend, registers[5])
        | nonzero(extend, registers[7]);
    0x80 * rules::flag(extend) + 0x40 * rules::flag(count) + 0x20 * rules::flag(lba)
}

// Tells key, ASC and ASCQ alone.
pub fn code(sense: &mut [u8], key: u8, asc: u8, ascq: u8)
    requires { 18 ≤ length sense.old }
    ensures { Wrote sense.old 0 (fixed_sense key asc ascq nothing) sense.new }
{
    let bytes = [
        0x70, 0, key, 0, 0, 0, 0, 0x0A, 0, 0, 0, 0, asc, ascq, 0, 0, 0, 0u8,
    ];
    room::copy(sense, 0, &bytes, 18);
}

// Tells the drive's registers beside them.
pub fn report(sense: &mut [u8], key: u8, asc: u8, ascq: u8, extend: bool, registers: &[u8])
    requires { (length registers.now ≡ 11) × (22 ≤ length sense.old) }
    ensures { Wrote sense.old 0 (fixed_sense key asc ascq (told extend registers.now)) sense.new }
{
    room::store_four(sense, 0, 0x70, 0x00, key, registers[0]);
    room::store_four(sense, 4, registers[10], registers[9], registers[2], 0x0A);
    let upper = upper_bits(extend, registers);
    room::store_four(sense, 8, upper, registers[4], registers[6], registers[8]);
    room::store_four(sense, 12, asc, ascq, 0x00, 0x00);
    let last = [0x00u8, 0x00u8];
    room::copy(sense, 16, &last, 2);
}
