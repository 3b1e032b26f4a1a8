// Texts: how the texts of an IDENTIFY block are written: the bytes of each word exchanged, zero bytes kept or made spaces; and which
// part of the firmware text is shown as a revision. The rules stand in specs/Text. Here a text is written byte by byte; `text_writers`
// writes whole words where they fit.
#![tactic(auto)]

ghost use Rattle.std.specs.Prelude.{◌≡◌, List, map, ◌<◌, length, get_or};
ghost use Rattle.room.specs.Room.{Wrote};
ghost use Rattle.texts.specs.Text.{turned, all_spaces, revision_part, revision};
ghost use Rattle.texts.specs.Helpers.{shown as Text·shown};

// A byte of a text, with zero as a space or as it stands.
pub fn shown(spaced: bool, byte: u8) -> u8
    ensures { result ≡ Text·shown spaced byte }
{
    if spaced {
        if byte == 0 {
            return 0x20;
        }
        return byte;
    }
    byte
}

// Byte i of a turned text: the other byte of its word. A last byte with no partner stays.
pub fn turned_at(text: &[u8], i: usize, spaced: bool) -> u8
    requires { i < length text.now }
    ensures { result ≡ get_or (map (Text·shown spaced) (turned text.now)) i 0 }
{
    let j = i + 1 - 2 * (i % 2);
    if j < text.len() {
        return shown(spaced, text[j]);
    }
    shown(spaced, text[i])
}

// Writes a text turned, byte by byte, each where there is room for it.
pub fn put_each(room: &mut [u8], at: usize, text: &[u8], spaced: bool)
    ensures { Wrote room.old at (map (Text·shown spaced) (turned text.now)) room.new }
{
    let mut i = 0;
    while i < text.len() {
        room::put_byte(room, at, i, turned_at(text, i, spaced));
        i += 1;
    }
}

// Whether every byte is a space.
fn all_spaces(text: &[u8]) -> bool
    ensures { result ≡ all_spaces text.now }
{
    let mut at = 0;
    while at < text.len() {
        if text[at] != 0x20 {
            return false;
        }
        at += 1;
    }
    true
}

// The two words of a firmware text that are shown as its revision, as they stand.
pub fn revision_part(firmware: &[u8]) -> &[u8]
    requires { length firmware.now ≡ 8 }
    ensures part { result.now ≡ revision_part firmware.now }
    ensures size { length result.now ≡ 4 }
{
    let last = &firmware[4..];
    if all_spaces(last) {
        return &firmware[..4];
    }
    last
}

// Writes the revision of a firmware text.
pub fn put_revision(room: &mut [u8], at: usize, firmware: &[u8])
    requires { length firmware.now ≡ 8 }
    ensures { Wrote room.old at (revision firmware.now) room.new }
{
    let part = revision_part(firmware);
    let turned = [part[1], part[0], part[3], part[2]];
    room::put_short(room, at, &turned);
}
