// Room: writing into room that a caller lends. What is called `put` stores what fits and leaves the rest of the room as it was, so
// that it asks for no room, and a cut reply is the same writer in a shorter room. What is called `store` is for room that is there.
#![tactic(auto)]

ghost use Rattle.std.specs.Prelude.{◌≡◌, List, [], ◌∷◌, ◌+◌, ◌%◌, ◌≤◌, leb, length};
ghost use Rattle.room.specs.Room.{Wrote};
ghost use Rattle.room.specs.Helpers.{fitting};

// How many of n bytes fit into a room of this length from a place on.
fn fit(room: usize, at: usize, n: usize) -> usize
    ensures { result ≡ fitting room at n }
{
    if room <= at {
        return 0;
    }
    if n <= room - at {
        return n;
    }
    room - at
}

// Whether n bytes fit into a room of this length from a place on.
pub fn fits(room: usize, at: usize, n: usize) -> bool
    ensures { result ≡ leb (at + n) room }
{
    if room < at {
        return false;
    }
    n <= room - at
}

// Writes the first n bytes of a slice from a place on, where n of them fit.
pub fn copy(room: &mut [u8], at: usize, bytes: &[u8], n: usize)
    requires { n ≡ fitting (length room.old) at (length bytes.now) }
    ensures { Wrote room.old at bytes.now room.new }
{
    let mut i = 0;
    while i < n {
        room[at + i] = bytes[i];
        i += 1;
    }
}

// Writes the bytes of a slice from a place on. Where all of them fit, as in nearly every call, their number is the slice's own
// length, which the compiler often knows: then it moves whole words. For long slices; `put_short` is for the others.
pub fn put(room: &mut [u8], at: usize, bytes: &[u8])
    ensures { Wrote room.old at bytes.now room.new }
{
    let n = fit(room.len(), at, bytes.len());
    if n == bytes.len() {
        copy(room, at, bytes, bytes.len());
        return;
    }
    copy(room, at, bytes, n);
}

// Writes byte i of what stands from a place on, where there is room for it.
pub fn put_byte(room: &mut [u8], at: usize, i: usize, byte: u8)
    ensures { Wrote room.old (at + i) (byte ∷ []) room.new }
{
    if at < room.len() {
        if i < room.len() - at {
            room[at + i] = byte;
        }
    }
}

// Writes four bytes that fit. All of them were read before the first is written, so that the compiler may move them as one.
pub fn store_four(room: &mut [u8], at: usize, a: u8, b: u8, c: u8, d: u8)
    requires { at + 4 ≤ length room.old }
    ensures { Wrote room.old at (a ∷ b ∷ c ∷ d ∷ []) room.new }
{
    room[at] = a;
    room[at + 1] = b;
    room[at + 2] = c;
    room[at + 3] = d;
}

// Writes a slice that fits, four bytes at a time.
pub fn store(room: &mut [u8], at: usize, bytes: &[u8])
    requires { (at + length bytes.now ≤ length room.old) × (length bytes.now % 4 ≡ 0) }
    ensures { Wrote room.old at bytes.now room.new }
{
    let mut i = 0;
    while i < bytes.len() {
        store_four(
            room,
            at + i,
            bytes[i],
            bytes[i + 1],
            bytes[i + 2],
            bytes[i + 3],
        );
        i += 4;
    }
}

// Writes a slice byte by byte, each where there is room for it.
fn put_each(room: &mut [u8], at: usize, bytes: &[u8])
    ensures { Wrote room.old at bytes.now room.new }
{
    let mut i = 0;
    while i < bytes.len() {
        put_byte(room, at, i, bytes[i]);
        i += 1;
    }
}

// Writes the bytes of a short slice from a place on. Its length is known where it is called, so that every index is, and an array
// that it is called with takes no stack.
pub fn put_short(room: &mut [u8], at: usize, bytes: &[u8])
    requires { length bytes.now % 4 ≡ 0 }
    ensures { Wrote room.old at bytes.now room.new }
{
    if fits(room.len(), at, bytes.len()) {
        store(room, at, bytes);
        return;
    }
    put_each(room, at, bytes);
}
