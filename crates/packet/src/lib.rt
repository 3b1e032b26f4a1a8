// Packet: which drive is a packet drive, and its page 00h made from the drive's own. The rules stand in specs/Packet.
#![tactic(auto)]

ghost use Rattle.std.specs.Prelude.{◌≡◌, false, List, ◌∷◌, ◌++◌, ◌+◌, ◌<◌, ◌≤◌, length, get_or, take, drop};
ghost use Rattle.room.specs.Room.{Wrote};
ghost use Rattle.packet.specs.Packet.{packet_drive, listed as Packet·listed, rising as Packet·rising, with89, unusable as Packet·unusable, page00};
ghost use Rattle.packet.specs.Helpers.{Place};

// Whether a signature is a packet drive's.
pub fn packet_drive(signature: &[u8]) -> bool
    ensures { result ≡ packet_drive signature.now }
{
    (rules::byte(signature, 5) == 0x14) & (rules::byte(signature, 6) == 0xEB)
}

// How many codes the drive's own page 00h says that it lists.
fn told(reply: &[u8]) -> usize
    ensures { (result ≡ get_or reply.now 3 0) × (result < 256) }
{
    rules::byte(reply, 3) as usize
}

// The list of the drive's own page 00h.
fn listed(reply: &[u8]) -> &[u8]
    ensures { result.now ≡ Packet·listed reply.now }
{
    let n = told(reply);
    if 4 + n <= reply.len() {
        return &reply[4..4 + n];
    }
    if 4 <= reply.len() {
        return &reply[4..];
    }
    &reply[..0]
}

// Whether a list rises strictly.
fn rising(codes: &[u8]) -> bool
    ensures { result ≡ Packet·rising codes.now }
{
    let mut i = 1;
    while i < codes.len() {
        if codes[i] <= codes[i - 1] {
            return false;
        }
        i += 1;
    }
    true
}

// How many codes stand before the place of 89h.
fn place(codes: &[u8]) -> usize
    ensures { Place codes.now result }
{
    let mut i = 0;
    while i < codes.len() {
        if 0x89 <= codes[i] {
            return i;
        }
        i += 1;
    }
    i
}

// Where the codes behind 89h begin: past the place of 89h, and past 89h itself where the list has it.
fn behind(codes: &[u8], at: usize) -> usize
    requires { Place codes.now at }
    ensures codes_value { with89 codes.now ≡ take at codes.now ++ 0x89 ∷ drop result codes.now }
    ensures lower_bound { (at ≤ result) × (result ≤ length codes.now) }
{
    if rules::byte(codes, at) == 0x89 {
        return at + 1;
    }
    at
}

// How many codes the list has with 89h, whose place is known: one more, but where it has 89h already.
fn count(codes: &[u8], at: usize) -> usize
    requires { Place codes.now at }
    ensures { (result ≡ length (with89 codes.now)) × (result ≤ length codes.now + 1) }
{
    if rules::byte(codes, at) == 0x89 {
        return codes.len();
    }
    codes.len() + 1
}

// Whether the drive's own page 00h cannot be used. A list of 255 codes without 89h is one that 89h makes longer than 255.
pub fn unusable(reply: &[u8]) -> bool
    ensures { result ≡ Packet·unusable reply.now }
{
    if reply.len() < 4 {
        return true;
    }
    if rules::byte(reply, 1) != 0x00 {
        return true;
    }
    if reply.len() - 4 < told(reply) {
        return true;
    }
    let codes = listed(reply);
    if !rising(codes) {
        return true;
    }
    if codes.len() < 255 {
        return false;
    }
    255 < count(codes, place(codes))
}

// The size of the page that is made of the drive's own.
pub fn size(reply: &[u8]) -> usize
    ensures { result ≡ length (page00 reply.now) }
{
    let codes = listed(reply);
    4 + count(codes, place(codes))
}

// Writes the codes with 89h among them, at its place, behind the page's four first bytes.
fn put_codes(room: &mut [u8], codes: &[u8], at: usize)
    requires { Place codes.now at }
    ensures { Wrote room.old 4 (with89 codes.now) room.new }
{
    let rest = behind(codes, at);
    room::put(room, 4, &codes[..at]);
    room::put_byte(room, 4, at, 0x89);
    room::put(room, 5 + at, &codes[rest..]);
}

// Writes the page that is made of the drive's own, as much of it as fits.
pub fn put(room: &mut [u8], reply: &[u8])
    requires { Packet·unusable reply.now ≡ false }
    ensures { Wrote room.old 0 (page00 reply.now) room.new }
{
    let codes = listed(reply);
    let at = place(codes);
    let n = count(codes, at);
    let head = [
        rules::byte(reply, 0),
        0x00u8,
        rules::byte(reply, 2),
        n as u8,
    ];
    room::put_short(room, 0, &head);
    put_codes(room, codes, at);
}
