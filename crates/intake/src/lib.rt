// Intake: IDENTIFY data off the wire, collected from runs of any length into a lent store of 512 bytes. The rule stands in
// specs/Intake; specs/Stream and proofs/Stream have what it says of a stream that is divided.
#![tactic(auto)]

ghost use Rattle.std.specs.Prelude.{◌≡◌, ◌+◌, ◌%◌, ◌≤◌, false, List, length};
ghost use Rattle.room.specs.Room.{Wrote};
ghost use Rattle.checksum.specs.Checksum.{sum_of};
ghost use Rattle.intake.specs.Intake.{empty as Intake·empty, wrong_intake, answer, outcome, taken, block_of, offered as Intake·offered};

// What an intake has: how many bytes, in the front of its store, and their sum modulo 256.
#[repr(C)]
#[derive(Clone, Copy)]
pub struct Intake {
    pub have: u16,
    pub sum: u16,
}

// What comes back of a run: the intake afterwards, how many bytes of the run it used, the refusal's number or 0, and whether it is
// complete.
#[repr(C)]
#[derive(Clone, Copy)]
pub struct Took {
    pub next: Intake,
    pub used: u16,
    pub number: u8,
    pub complete: u8,
}

// An intake that has nothing.
pub fn empty() -> Intake
    ensures { result ≡ Intake·empty }
{
    Intake { have: 0, sum: 0 }
}

// 1: a store of another size, or an intake that claims more than 512 bytes.
pub fn wrong(intake: Intake, store: usize) -> bool
    ensures { result ≡ wrong_intake intake.have store }
{
    (store != 512) | (512 < intake.have)
}

// Stores bytes from a place on, and counts a sum modulo 256 on over them. Both in one loop, so that each byte is read once.
fn keep(store: &mut [u8], at: usize, bytes: &[u8], before: u16) -> u16
    requires { at + length bytes.now ≤ length store.old }
    ensures { Wrote store.old at bytes.now store.new × (result ≡ (before + sum_of bytes.now) % 256) }
{
    let mut sum = (before % 256) as u8;
    let mut i = 0;
    while i < bytes.len() {
        let byte = bytes[i];
        store[at + i] = byte;
        sum = std::num::wrapping_add_u8(sum, byte);
        i += 1;
    }
    sum as u16
}

// Takes a run: as many of its bytes as the intake lacks, behind those that it has.
pub fn take(intake: Intake, store: &mut [u8], run: &[u8]) -> Took
    ensures { outcome result store.new ≡ taken intake store.old run.now }
{
    if wrong(intake, store.len()) {
        return Took {
            next: intake,
            used: 0,
            number: 1,
            complete: 0,
        };
    }
    let at = intake.have as usize;
    let used = rules::lesser(run.len(), 512 - at);
    let part = &run[..used];
    let sum = keep(store, at, part, intake.sum);
    let have = (at + used) as u16;
    let used = used as u16;
    Took {
        next: Intake { have, sum },
        used,
        number: 0,
        complete: rules::flag(have == 512),
    }
}

// What an intake offers as its block: the refusal's number or 0, and how many bytes of its store.
#[repr(C)]
#[derive(Clone, Copy)]
pub struct Offered {
    pub number: u8,
    pub count: usize,
}

// How many bytes of its store an intake gives as its block, for callers that cut it themselves.
pub fn block_size(intake: Intake, store: usize) -> Offered
    ensures { result ≡ Intake·offered intake.have store }
{
    if wrong(intake, store) {
        return Offered {
            number: 1,
            count: 0,
        };
    }
    if intake.have == 512 {
        return Offered {
            number: 0,
            count: 512,
        };
    }
    Offered {
        number: 0,
        count: 0,
    }
}

// The block of an intake: its store where it is complete, and else no bytes. For callers that have asked `wrong`.
pub fn block(have: u16, store: &[u8]) -> &[u8]
    requires { wrong_intake have (length store.now) ≡ false }
    ensures { result.now ≡ block_of have store.now }
{
    if have == 512 {
        return store;
    }
    &store[..0]
}
