// What a command sends to the drive's registers, read at the places of its form.
ghost use Rattle.std.specs.Prelude.{◌≡◌, true, false, cond, ◌+◌, ◌*◌, ◌≤◌, length, get_or};
ghost use Rattle.passthrough_fields.specs.Fields.{long as Fields·long, longest as Fields·longest, auxiliary as Fields·auxiliary};
ghost use Rattle.passthrough_fields.specs.Helpers.{Whole, sent_of};

// EXTEND, the auxiliary number, five registers, device and command.
#[derive(Clone, Copy)]
pub struct Sent {
    pub extend: bool,
    pub auxiliary: u32,
    pub features: u16,
    pub count: u16,
    pub lba_low: u16,
    pub lba_mid: u16,
    pub lba_high: u16,
    pub device: u8,
    pub command: u8,
}

// A register's number: without EXTEND its upper byte counts as zero.
fn number(extend: bool, upper: u8, lower: u8) -> u16
    ensures { result ≡ 0x100 * cond extend upper 0 + lower }
{
    if extend {
        return rules::pair(upper, lower);
    }
    rules::pair(0, lower)
}

// The 12-byte form has no upper bytes.
fn of_short(command: &[u8]) -> Sent
    requires { Whole command.now × (Fields·longest command.now ≡ false) × (Fields·long command.now ≡ false) }
    ensures { result ≡ sent_of command.now }
{
    Sent {
        extend: false,
        auxiliary: 0,
        features: number(false, 0, command[3]),
        count: number(false, 0, command[4]),
        lba_low: number(false, 0, command[5]),
        lba_mid: number(false, 0, command[6]),
        lba_high: number(false, 0, command[7]),
        device: command[8],
        command: command[9],
    }
}

// In the 16-byte form each upper byte stands before its lower one.
fn of_long(command: &[u8]) -> Sent
    requires { Whole command.now × (16 ≤ length command.now) × (Fields·longest command.now ≡ false) × (Fields·long command.now ≡ true) }
    ensures { result ≡ sent_of command.now }
{
    let extend = crate::extend(command);
    Sent {
        extend,
        auxiliary: 0,
        features: number(extend, command[3], command[4]),
        count: number(extend, command[5], command[6]),
        lba_low: number(extend, command[7], command[8]),
        lba_mid: number(extend, command[9], command[10]),
        lba_high: number(extend, command[11], command[12]),
        device: command[13],
        command: command[14],
    }
}

// The auxiliary number of the 32-byte form.
fn auxiliary(command: &[u8]) -> u32
    requires { Whole command.now × (32 ≤ length command.now) × (Fields·longest command.now ≡ true) }
    ensures { result ≡ Fields·auxiliary command.now }
{
    let high = rules::pair(command[28], command[29]) as u32;
    let low = rules::pair(command[30], command[31]) as u32;
    65536 * high + low
}

// In the 32-byte form the LBA stands high byte first: high, mid and low, first the upper bytes and then the lower.
fn of_longest(command: &[u8]) -> Sent
    requires { Whole command.now × (32 ≤ length command.now) × (Fields·longest command.now ≡ true) }
    ensures { result ≡ sent_of command.now }
{
    let extend = crate::extend(command);
    Sent {
        extend,
        auxiliary: auxiliary(command),
        features: number(extend, command[20], command[21]),
        count: number(extend, command[22], command[23]),
        lba_low: number(extend, command[16], command[19]),
        lba_mid: number(extend, command[15], command[18]),
        lba_high: number(extend, command[14], command[17]),
        device: command[24],
        command: command[25],
    }
}

pub fn read(command: &[u8]) -> Sent
    requires { Whole command.now }
    ensures { result ≡ sent_of command.now }
{
    if crate::longest(command) {
        return of_longest(command);
    }
    if crate::long(command) {
        return of_long(command);
    }
    of_short(command)
}
