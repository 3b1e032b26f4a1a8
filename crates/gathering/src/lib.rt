// Gathering: the blocks of a run of intakes, whose stores stand one after the other, gathered into lent room. An intake that is not
// complete gives none. The rules stand in specs/Gathering.
#![tactic(auto)]

ghost use Rattle.std.specs.Prelude.{◌≡◌, false, cond, List, ◌≤◌, length};
ghost use Rattle.room.specs.Room.{Wrote};
ghost use Rattle.intake.specs.Intake.{complete};
ghost use Rattle.gathering.specs.Gathering.{claims_too_much, gathered, wrong_run, given, gather_outcome, gather_of};
ghost use Rattle.gathering.specs.Helpers.{complete_in, damaged_in};

// Whether some intake claims more than 512 bytes.
fn claims_too_much(haves: &[u16]) -> bool
    ensures { result ≡ claims_too_much haves.now }
{
    let mut i = 0;
    while i < haves.len() {
        if 512 < haves[i] {
            return true;
        }
        i += 1;
    }
    false
}

// 1: stores of another size than 512 bytes an intake, or an intake that claims more than 512.
pub fn wrong_run(haves: &[u16], stores: usize) -> bool
    ensures { result ≡ wrong_run haves.now stores }
{
    if stores % 512 != 0 {
        return true;
    }
    if stores / 512 != haves.len() {
        return true;
    }
    claims_too_much(haves)
}

// 1 for an intake that is complete.
fn counts(have: u16) -> usize
    ensures value { result ≡ cond (complete have) 1 0 }
    ensures small { result ≤ 1 }
{
    if have == 512 {
        return 1;
    }
    0
}

// How many intakes are complete.
pub fn count_complete(haves: &[u16]) -> usize
    ensures count { result ≡ complete_in haves.now }
    ensures small { result ≤ length haves.now }
{
    let mut count = 0;
    let mut i = 0;
    while i < haves.len() {
        count += counts(haves[i]);
        i += 1;
    }
    count
}

// Whether the block of some intake is damaged; one that is not complete has none to ask.
pub fn any_damaged(haves: &[u16], stores: &[u8]) -> bool
    requires { wrong_run haves.now (length stores.now) ≡ false }
    ensures { result ≡ damaged_in haves.now stores.now }
{
    let mut k = 0;
    while k < haves.len() {
        if checksum::damaged(intake::block(haves[k], roll::block_at(stores, k))) {
            return true;
        }
        k += 1;
    }
    false
}

// Writes the blocks of the complete intakes one after the other.
pub fn put_blocks(haves: &[u16], stores: &[u8], room: &mut [u8])
    requires { wrong_run haves.now (length stores.now) ≡ false }
    ensures { Wrote room.old 0 (gathered haves.now stores.now) room.new }
{
    let mut at = 0;
    let mut i = 0;
    while i < haves.len() {
        let block = intake::block(haves[i], roll::block_at(stores, i));
        room::put(room, at, block);
        at += block.len();
        i += 1;
    }
}

// What comes back of gathering: the refusal's number or 0, and how many bytes of blocks stand in the room.
#[repr(C)]
#[derive(Clone, Copy)]
pub struct Gathered {
    pub number: u8,
    pub count: usize,
}

fn gave(number: u8, count: usize) -> Gathered
    ensures { result ≡ given number count }
{
    Gathered { number, count }
}

// Gathers the blocks of a run of intakes, for a caller that calls the roll itself.
pub fn gather(haves: &[u16], stores: &[u8], room: &mut [u8]) -> Gathered
    ensures { gather_outcome result room.new ≡ gather_of haves.now stores.now room.old }
{
    if wrong_run(haves, stores.len()) {
        return gave(1, 0);
    }
    if any_damaged(haves, stores) {
        return gave(18, 0);
    }
    let count = 512 * count_complete(haves);
    if room.len() < count {
        return gave(8, 0);
    }
    put_blocks(haves, stores, room);
    gave(0, count)
}
