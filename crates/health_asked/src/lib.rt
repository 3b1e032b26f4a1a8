// Health asked: asks one drive for its health by SMART RETURN STATUS, and reads what it said out of the sense data that come back. This
// is the health page that version three asked for as a write: here the command is non-data, and the drive waits for nothing.
// What each answer stands for is in specs/Said, what is asked and how in specs/Asked.
#![tactic(auto)]

ghost use Rattle.std.specs.Prelude.{◌≡◌};
ghost use Rattle.health_asked.specs.Said.{values_of, has_registers, verdict_of, heard_in};
ghost use Rattle.health_asked.specs.Asked.{return_status, ended, asked, given};

use passthrough::Pending;

// What a drive said of its health. Error has the drive's error register, Refused the number of the board's refusal.
#[derive(Clone, Copy)]
pub enum Said {
    Healthy,
    Failing,
    Unknown,
    Error(u8),
    Refused(u8),
}

// The record after a drive was asked, and what it said.
#[derive(Clone, Copy)]
pub struct Asked {
    pub next: Pending,
    pub said: Said,
}

// SMART RETURN STATUS as ATA PASS-THROUGH (16): protocol 3, which is non-data, and CK_COND one, so that the registers come
// back without an error too. Features DAh, LBA mid 4Fh, LBA high C2h, device A0h, command B0h.
fn return_status() -> [u8; 16]
    ensures { result ≡ return_status }
{
    let mut command = [0u8; 16];
    command[0] = 0x85;
    command[1] = 0x06;
    command[2] = 0x20;
    command[4] = 0xDA;
    command[10] = 0x4F;
    command[12] = 0xC2;
    command[13] = 0xA0;
    command[14] = 0xB0;
    command
}

// Whether sense data are in descriptor form and start with the descriptor that has the drive's registers.
fn has_registers(sense: &[u8; 22]) -> bool
    ensures { result ≡ has_registers sense.now }
{
    (sense[0] == 0x72) & (sense[8] == 0x09) & (sense[9] == 0x0C)
}

// What the two register bytes say that the drive leaves as they were sent, or turns where it fails.
fn verdict(mid: u8, high: u8) -> Said
    ensures { result ≡ verdict_of mid high }
{
    if (mid == 0x4F) & (high == 0xC2) {
        return Said::Healthy;
    }
    if (mid == 0xF4) & (high == 0x2C) {
        return Said::Failing;
    }
    Said::Unknown
}

// What the sense data of the command's end say: key 0Bh is an error; else LBA mid and high decide.
fn heard(sense: &[u8; 22]) -> Said
    ensures { result ≡ heard_in sense.now }
{
    if !has_registers(sense) {
        return Said::Unknown;
    }
    if sense[1] == 0x0B {
        return Said::Error(sense[11]);
    }
    verdict(sense[17], sense[19])
}

// Ends the command that is pending with the registers that the drive left.
fn end(pending: Pending, registers: &[u8]) -> Asked
    ensures { result ≡ ended pending registers.now }
{
    let mut sense = [0u8; 22];
    let completed = pending.complete(registers, sense::DESCRIPTOR, &mut sense);
    let next = completed.next;
    let number = completed.ended.number;
    if number != 0 {
        return Asked {
            next,
            said: Said::Refused(number),
        };
    }
    Asked {
        next,
        said: heard(&sense),
    }
}

// Sends the command to a drive that then leaves these registers.
pub fn ask(pending: Pending, registers: &[u8]) -> Asked
    ensures rules { result ≡ asked pending registers.now }
    ensures values { values_of result.said ≡ given pending registers.now }
{
    let mut sense = [0u8; 22];
    let submitted = pending.submit(
        &return_status(),
        registers,
        &registers[..0],
        0,
        passthrough::FIRST,
        sense::DESCRIPTOR,
        &mut sense,
    );
    let next = submitted.next;
    let number = submitted.taken.number;
    if number != 0 {
        return Asked {
            next,
            said: Said::Refused(number),
        };
    }
    end(next, registers)
}
