// Text writers: write a text turned, its zero bytes kept or made spaces, whole words at a time where it fits, else byte by byte. The
// rules stand in `texts`, specs/Text.
#![tactic(auto)]

ghost use Rattle.std.specs.Prelude.{◌≡◌, List, map, ◌+◌, ◌%◌, ◌≤◌, length, take, drop};
ghost use Rattle.room.specs.Room.{Wrote};
ghost use Rattle.texts.specs.Text.{turned, spaced};
ghost use Rattle.texts.specs.Helpers.{shown};

// Four words of a text, each turned.
fn words(text: &[u8], i: usize, spaced: bool) -> [u8; 8]
    requires { (i + 8 ≤ length text.now) × (i % 2 ≡ 0) }
    ensures { result ≡ take 8 (drop i (map (shown spaced) (turned text.now))) }
{
    [
        texts::shown(spaced, text[i + 1]),
        texts::shown(spaced, text[i]),
        texts::shown(spaced, text[i + 3]),
        texts::shown(spaced, text[i + 2]),
        texts::shown(spaced, text[i + 5]),
        texts::shown(spaced, text[i + 4]),
        texts::shown(spaced, text[i + 7]),
        texts::shown(spaced, text[i + 6]),
    ]
}

// Writes four words that fit, each turned. As in `room::store_four`, all are read before the first is written.
pub fn store_words(room: &mut [u8], at: usize, text: &[u8], i: usize, spaced: bool)
    requires { (at + 8 ≤ length room.old) × ((i + 8 ≤ length text.now) × (i % 2 ≡ 0)) }
    ensures { Wrote room.old at (take 8 (drop i (map (shown spaced) (turned text.now)))) room.new }
{
    let a = words(text, i, spaced);
    room::store_four(room, at, a[0], a[1], a[2], a[3]);
    room::store_four(room, at + 4, a[4], a[5], a[6], a[7]);
}

// Writes eight words that fit, turned, their zero bytes as spaces: sixteen bytes, which the compiler may move as one.
pub fn store_line(room: &mut [u8], at: usize, text: &[u8], i: usize)
    requires { (at + 16 ≤ length room.old) × ((i + 16 ≤ length text.now) × (i % 2 ≡ 0)) }
    ensures { Wrote room.old at (take 16 (drop i (spaced (turned text.now)))) room.new }
{
    let a = words(text, i, true);
    let b = words(text, i + 8, true);
    room::store_four(room, at, a[0], a[1], a[2], a[3]);
    room::store_four(room, at + 4, a[4], a[5], a[6], a[7]);
    room::store_four(room, at + 8, b[0], b[1], b[2], b[3]);
    room::store_four(room, at + 12, b[4], b[5], b[6], b[7]);
}

// Writes the last two words of a text, which fit, turned, their zero bytes as spaces.
pub fn store_last(room: &mut [u8], at: usize, text: &[u8], i: usize)
    requires { (at + 4 ≤ length room.old) × ((i + 4 ≡ length text.now) × (i % 2 ≡ 0)) }
    ensures { Wrote room.old at (drop i (spaced (turned text.now))) room.new }
{
    let a = texts::shown(true, text[i + 1]);
    let b = texts::shown(true, text[i]);
    let c = texts::shown(true, text[i + 3]);
    let d = texts::shown(true, text[i + 2]);
    room::store_four(room, at, a, b, c, d);
}

// Writes a text that fits turned, its zero bytes kept.
pub fn store_turned(room: &mut [u8], at: usize, text: &[u8])
    requires { (at + length text.now ≤ length room.old) × (length text.now % 8 ≡ 0) }
    ensures { Wrote room.old at (turned text.now) room.new }
{
    let mut i = 0;
    while i < text.len() {
        store_words(room, at + i, text, i, false);
        i += 8;
    }
}

// Writes a text that fits turned, its zero bytes as spaces.
pub fn store_spaced(room: &mut [u8], at: usize, text: &[u8])
    requires { (at + length text.now ≤ length room.old) × (length text.now % 4 ≡ 0) }
    ensures { Wrote room.old at (spaced (turned text.now)) room.new }
{
    let mut i = 0;
    while 8 <= text.len() - i {
        store_words(room, at + i, text, i, true);
        i += 8;
    }
    if i < text.len() {
        store_last(room, at + i, text, i);
    }
}

// Writes a text turned, its zero bytes kept. The name's words so go high byte first.
pub fn put_turned(room: &mut [u8], at: usize, text: &[u8])
    requires { length text.now % 8 ≡ 0 }
    ensures { Wrote room.old at (turned text.now) room.new }
{
    if room::fits(room.len(), at, text.len()) {
        store_turned(room, at, text);
        return;
    }
    texts::put_each(room, at, text, false);
}

// Writes a text turned, its zero bytes as spaces.
pub fn put_spaced(room: &mut [u8], at: usize, text: &[u8])
    requires { length text.now % 4 ≡ 0 }
    ensures { Wrote room.old at (spaced (turned text.now)) room.new }
{
    if room::fits(room.len(), at, text.len()) {
        store_spaced(room, at, text);
        return;
    }
    texts::put_each(room, at, text, true);
}
