// Page 83h as far as it tells the drive: its head, and the first descriptor, which names the drive by its name or by its texts. The rules
// stand in specs/Descriptor.
#![tactic(auto)]

ghost use Rattle.std.specs.Prelude.{◌≡◌, List, ◌++◌, ◌≤◌, length};
ghost use Rattle.room.specs.Room.{Wrote};
ghost use Rattle.identify.specs.Block.{serial, model, name};
ghost use Rattle.texts.specs.Text.{turned, spaced};
ghost use Rattle.page83_drive.specs.Descriptor.{head, name_descriptor, text_descriptor};

// What the descriptor of a name starts with: CODE SET binary, DESIGNATOR TYPE NAA, DESIGNATOR LENGTH.
pub const NAME_HEAD: [u8; 4] = [0x01, 0x03, 0x00, 0x08];

// What that of texts starts with: CODE SET ASCII, DESIGNATOR TYPE T10 vendor identification, DESIGNATOR LENGTH, and the vendor.
pub const TEXT_HEAD: [u8; 12] = [
    0x02, 0x01, 0x00, 0x44, b'A', b'T', b'A', b' ', b' ', b' ', b' ', b' ',
];

// Head and descriptor of a drive that carries a name, in room that holds them; the head tells the bytes behind it.
pub fn store_name(room: &mut [u8], block: &[u8], behind: u8)
    requires { (length block.now ≡ 512) × (16 ≤ length room.old) }
    ensures { Wrote room.old 0 (head behind ++ name_descriptor (turned (name block.now))) room.new }
{
    room::store_four(room, 0, 0x00, 0x83, 0x00, behind);
    room::store(room, 4, &NAME_HEAD);
    text_writers::store_turned(room, 8, identify::name(block));
}

// As much of it as fits.
pub fn put_name(room: &mut [u8], block: &[u8], behind: u8)
    requires { length block.now ≡ 512 }
    ensures { Wrote room.old 0 (head behind ++ name_descriptor (turned (name block.now))) room.new }
{
    if 16 <= room.len() {
        store_name(room, block, behind);
        return;
    }
    let head = [0x00u8, 0x83u8, 0x00u8, behind];
    room::put_short(room, 0, &head);
    room::put_short(room, 4, &NAME_HEAD);
    text_writers::put_turned(room, 8, identify::name(block));
}

// The model of a drive that carries no name, turned and spaced, in room that holds it. It is written in pieces of known places, which
// the compiler moves sixteen bytes at a time.
fn store_model(room: &mut [u8], model: &[u8])
    requires { (length model.now ≡ 40) × (56 ≤ length room.old) }
    ensures { Wrote room.old 16 (spaced (turned model.now)) room.new }
{
    text_writers::store_line(room, 16, model, 0);
    text_writers::store_line(room, 32, model, 16);
    text_writers::store_words(room, 48, model, 32, true);
}

// Its serial number, behind the model.
fn store_serial(room: &mut [u8], serial: &[u8])
    requires { (length serial.now ≡ 20) × (76 ≤ length room.old) }
    ensures { Wrote room.old 56 (spaced (turned serial.now)) room.new }
{
    text_writers::store_line(room, 56, serial, 0);
    text_writers::store_last(room, 72, serial, 16);
}

// Head and descriptor of a drive that carries none, in room that holds them.
pub fn store_texts(room: &mut [u8], block: &[u8], behind: u8)
    requires { (length block.now ≡ 512) × (76 ≤ length room.old) }
    ensures { Wrote room.old 0 (head behind ++ text_descriptor (spaced (turned (model block.now))) (spaced (turned (serial block.now)))) room.new }
{
    room::store_four(room, 0, 0x00, 0x83, 0x00, behind);
    room::store(room, 4, &TEXT_HEAD);
    store_model(room, identify::model(block));
    store_serial(room, identify::serial(block));
}

// As much of it as fits.
pub fn put_texts(room: &mut [u8], block: &[u8], behind: u8)
    requires { length block.now ≡ 512 }
    ensures { Wrote room.old 0 (head behind ++ text_descriptor (spaced (turned (model block.now))) (spaced (turned (serial block.now)))) room.new }
{
    if 76 <= room.len() {
        store_texts(room, block, behind);
        return;
    }
    let head = [0x00u8, 0x83u8, 0x00u8, behind];
    room::put_short(room, 0, &head);
    room::put_short(room, 4, &TEXT_HEAD);
    texts::put_each(room, 16, identify::model(block), true);
    texts::put_each(room, 56, identify::serial(block), true);
}
