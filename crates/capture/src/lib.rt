// Capture: where the fields of a capture stand, and whether its layout holds. The rules stand in specs/Capture.
#![tactic(auto)]

ghost use Rattle.std.specs.Prelude.{◌≡◌, Bool, true, List, ◌<◌, ◌≤◌, length};
ghost use Rattle.capture.specs.Capture.{told as Capture·told, content as Capture·content, stands as Capture·stands, taken as Capture·taken, stands89, place89, holds, layout as Capture·layout, information as Capture·information};

// The tags that may stand before 89h.
pub const OTHERS: [u8; 4] = [0x00, 0x01, 0x80, 0x83];

// Whether the layout holds; the place where the fields end, which is where it is broken if it does not hold.
#[derive(Clone, Copy)]
pub struct Laid {
    pub holds: bool,
    pub place: usize,
}

// What the two length bytes of the field at the front say.
fn told(rest: &[u8]) -> usize
    ensures { (result ≡ Capture·told rest.now) × (result < 0x10000) }
{
    rules::pair(rules::byte(rest, 1), rules::byte(rest, 2)) as usize
}

// The bytes of the field at the front.
pub fn content(rest: &[u8]) -> &[u8]
    ensures { result.now ≡ Capture·content rest.now }
{
    rules::part(rest, 3, 3 + told(rest))
}

// Whether a field of this tag stands at the front.
pub fn stands(rest: &[u8], tag: u8) -> bool
    ensures { result ≡ Capture·stands tag rest.now }
{
    if rest.len() < 3 {
        return false;
    }
    if rest[0] != tag {
        return false;
    }
    told(rest) <= rest.len() - 3
}

// How many bytes a field of this tag takes at the front: none where it does not stand there.
pub fn taken(rest: &[u8], tag: u8) -> usize
    ensures { (result ≡ Capture·taken tag rest.now) × (result ≤ length rest.now) }
{
    if stands(rest, tag) {
        return 3 + told(rest);
    }
    0
}

// Where 89h is to stand: behind all others.
fn others_end(capture: &[u8]) -> usize
    ensures { (result ≡ place89 capture.now) × (result ≤ length capture.now) }
{
    let mut at = 0;
    let mut k = 0;
    while k < 4 {
        at += taken(&capture[at..], OTHERS[k]);
        k += 1;
    }
    at
}

// Whether 89h stands at the front, with 572 bytes.
fn stands_89(rest: &[u8]) -> bool
    ensures { result ≡ stands89 rest.now }
{
    if stands(rest, 0x89) {
        return told(rest) == 572;
    }
    false
}

// The layout of a capture.
pub fn layout(capture: &[u8]) -> Laid
    ensures { result ≡ Capture·layout capture.now }
{
    let at = others_end(capture);
    if stands_89(&capture[at..]) {
        return Laid {
            holds: at + 575 == capture.len(),
            place: at + 575,
        };
    }
    Laid {
        holds: false,
        place: at,
    }
}

// The bytes of 89h, the last field.
pub fn information(capture: &[u8]) -> &[u8]
    requires { holds capture.now ≡ true }
    ensures bytes { result.now ≡ Capture·information capture.now }
    ensures size { length result.now ≡ 572 }
{
    &capture[capture.len() - 572..]
}
