// Sense: the sense data that a refusal or an ended order leaves, in the form that the caller asks for. The rules stand in specs/: Sense
// (which form, and the bytes of the descriptor form; those of the fixed one are sense_fixed's) and Carried (what is read out of either).
#![tactic(auto)]

ghost use Rattle.std.specs.Prelude.{◌≡◌, Bool, true, false, List, ◌<◌, ◌≤◌, length};
ghost use Rattle.room.specs.Room.{Wrote};
ghost use Rattle.sense.specs.Sense.{is_fixed, descriptor_sense, sense_data, nothing, registers as told, upper as Sense·upper, shown as Sense·shown};

// The forms of sense data that a caller may ask for; every other number states none.
pub const UNSTATED: u8 = 0;

pub const FIXED: u8 = 1;

pub const DESCRIPTOR: u8 = 2;

// Whether a form is the fixed one.
fn is_fixed(form: u8) -> bool
    ensures { result ≡ is_fixed form }
{
    form != DESCRIPTOR
}

// The eight bytes that tell key, ASC and ASCQ alone in the descriptor form.
fn put_descriptor_code(sense: &mut [u8], key: u8, asc: u8, ascq: u8)
    requires { 8 ≤ length sense.old }
    ensures { Wrote sense.old 0 (descriptor_sense key asc ascq nothing) sense.new }
{
    let bytes = [0x72u8, key, asc, ascq, 0x00u8, 0x00u8, 0x00u8, 0x00u8];
    room::copy(sense, 0, &bytes, 8);
}

// The sense data that tell key, ASC and ASCQ alone.
pub fn put_code(sense: &mut [u8], form: u8, key: u8, asc: u8, ascq: u8)
    requires { 22 ≤ length sense.old }
    ensures { Wrote sense.old 0 (sense_data form key asc ascq nothing) sense.new }
{
    if is_fixed(form) {
        sense_fixed::code(sense, key, asc, ascq);
        return;
    }
    put_descriptor_code(sense, key, asc, ascq);
}

// An upper register byte, as EXTEND has it.
fn upper(extend: bool, byte: u8) -> u8
    ensures { result ≡ Sense·upper extend byte }
{
    if extend {
        return byte;
    }
    0
}

// The registers as the descriptor form shows them. They are stored four at a time: where all are read before the first is stored, the
// compiler holds them on the stack.
fn store_shown(sense: &mut [u8], extend: bool, registers: &[u8])
    requires { (length registers.now ≡ 11) × (22 ≤ length sense.old) }
    ensures { Wrote sense.old 11 (Sense·shown extend registers.now) sense.new }
{
    let count = upper(extend, registers[1]);
    let lba_low = upper(extend, registers[3]);
    room::store_four(sense, 11, registers[0], count, registers[2], lba_low);
    let lba_mid = upper(extend, registers[5]);
    let lba_high = upper(extend, registers[7]);
    room::store_four(sense, 15, registers[4], lba_mid, registers[6], lba_high);
    let last = [registers[8], registers[9], registers[10]];
    room::copy(sense, 19, &last, 3);
}

// Tells the drive's registers beside key, ASC and ASCQ in the descriptor form.
fn report_descriptor(sense: &mut [u8], key: u8, asc: u8, ascq: u8, extend: bool, registers: &[u8])
    requires { (length registers.now ≡ 11) × (22 ≤ length sense.old) }
    ensures { Wrote sense.old 0 (descriptor_sense key asc ascq (told extend registers.now)) sense.new }
{
    // behind them the status return descriptor
    let head = [
        0x72u8,
        key,
        asc,
        ascq,
        0x00u8,
        0x00u8,
        0x00u8,
        0x0Eu8,
        0x09u8,
        0x0Cu8,
        rules::flag(extend),
    ];
    room::copy(sense, 0, &head, 11);
    store_shown(sense, extend, registers);
}

// Writes the sense data that tell the drive's registers beside key, ASC and ASCQ.
pub fn report(
    sense: &mut [u8],
    form: u8,
    key: u8,
    asc: u8,
    ascq: u8,
    extend: bool,
    registers: &[u8],
)
    requires { (length registers.now ≡ 11) × (22 ≤ length sense.old) }
    ensures { Wrote sense.old 0 (sense_data form key asc ascq (told extend registers.now)) sense.new }
{
    // Taken here, before a byte is stored, the compiler hands on where they stand and not the slice.
    let registers = &registers[..11];
    if is_fixed(form) {
        sense_fixed::report(sense, key, asc, ascq, extend, registers);
        return;
    }
    report_descriptor(sense, key, asc, ascq, extend, registers);
}
