// Page 83h: the page that names a drive, for whoever has a block and room, with the target ports that are chosen behind the name. The
// rules stand in specs/Page83, those of its head and of the drive's descriptor in `page83_drive`, those of the ports in `port`;
// `page83_reader` reads the page.
#![tactic(auto)]

ghost use Rattle.std.specs.Prelude.{◌≡◌, Bool, true, false, List, ◌+◌, ◌≤◌, length};
ghost use Rattle.room.specs.Room.{Wrote};
ghost use Rattle.identify.specs.Names.{carries_name};
ghost use Rattle.port.specs.Ports.{ports_part, wrong_address};
ghost use Rattle.page83.specs.Page83.{page83, outcome, write as Page83·write};
ghost use Rattle.port.specs.Helpers.{ports_size};
ghost use Rattle.page83.specs.Helpers.{page_size, Grows, Whole};

use port::Ports;

// What comes back of the writer: the refusal's number or 0, and how many bytes were written.
#[repr(C)]
#[derive(Clone, Copy)]
pub struct Written {
    pub number: u8,
    pub count: usize,
}

// Writes the ports that are chosen behind a page without them, whose end is told, and into its head how many bytes are behind it now.
fn store_ports(room: &mut [u8], end: usize, behind: u8, ports: Ports, address: &[u8])
    requires { (wrong_address ports address.now ≡ false) × ((4 ≤ end) × (end + ports_size ports ≤ length room.old)) }
    ensures { Grows ports address.now end behind room.old room.new }
{
    if port::chosen(ports) {
        room::put_byte(room, 0, 3, behind);
        port::store(room, end, ports, address);
    }
}

// Writes the ports that are chosen behind the drive's descriptor, as much of them as fits there.
fn put_ports(room: &mut [u8], end: usize, ports: Ports, address: &[u8])
    requires { wrong_address ports address.now ≡ false }
    ensures { Wrote room.old end (ports_part ports address.now) room.new }
{
    if port::chosen(ports) {
        let behind = rules::lesser(end, room.len());
        port::put(&mut room[behind..], ports, address);
    }
}

// Writes the page of a block, as much of it as fits.
pub fn put(room: &mut [u8], block: &[u8], ports: Ports, address: &[u8])
    requires { (length block.now ≡ 512) × (wrong_address ports address.now ≡ false) }
    ensures { Wrote room.old 0 (page83 block.now ports address.now) room.new }
{
    if identify::carries_name(block) {
        page83_drive::put_name(room, block, 12 + port::size(ports));
        put_ports(room, 16, ports, address);
        return;
    }
    page83_drive::put_texts(room, block, 72 + port::size(ports));
    put_ports(room, 76, ports, address);
}

// The page's size; the address counts as one of 8 bytes.
pub fn size(block: &[u8], ports: Ports) -> usize
    requires { length block.now ≡ 512 }
    ensures { result ≡ page_size block.now ports }
{
    let grown = port::size(ports) as usize;
    if identify::carries_name(block) {
        return 16 + grown;
    }
    76 + grown
}

// Writes the page of a drive that carries a name, where neither an allocation length nor the room cuts it: then its size comes back.
fn put_whole_name(room: &mut [u8], block: &[u8], ports: Ports, address: &[u8], most: usize) -> usize
    requires { (length block.now ≡ 512) × ((wrong_address ports address.now ≡ false) × (carries_name block.now ≡ true)) }
    ensures { Whole (page83 block.now ports address.now) most room.old result room.new }
{
    let grown = port::size(ports);
    let size = 16 + grown as usize;
    if rules::lesser(most, room.len()) < size {
        return 0;
    }
    page83_drive::store_name(room, block, 12);
    store_ports(room, 16, 12 + grown, ports, address);
    size
}

// The same of a drive that carries none.
fn put_whole_texts(
    room: &mut [u8],
    block: &[u8],
    ports: Ports,
    address: &[u8],
    most: usize,
) -> usize
    requires { (length block.now ≡ 512) × ((wrong_address ports address.now ≡ false) × (carries_name block.now ≡ false)) }
    ensures { Whole (page83 block.now ports address.now) most room.old result room.new }
{
    let grown = port::size(ports);
    let size = 76 + grown as usize;
    if rules::lesser(most, room.len()) < size {
        return 0;
    }
    page83_drive::store_texts(room, block, 72);
    store_ports(room, 76, 72 + grown, ports, address);
    size
}

// Writes the page of a block where nothing cuts it, as nearly every host asks for it: what fits of each piece need not be counted.
pub fn put_whole(room: &mut [u8], block: &[u8], ports: Ports, address: &[u8], most: usize) -> usize
    requires { (length block.now ≡ 512) × (wrong_address ports address.now ≡ false) }
    ensures { Whole (page83 block.now ports address.now) most room.old result room.new }
{
    if identify::carries_name(block) {
        return put_whole_name(room, block, ports, address, most);
    }
    put_whole_texts(room, block, ports, address, most)
}

// The writer's answer.
fn wrote(number: u8, count: usize) -> Written
    ensures { result ≡ record { number = number; count = count } }
{
    Written { number, count }
}

// Writes the whole page of a block into room that holds it.
pub fn write(block: &[u8], ports: Ports, address: &[u8], room: &mut [u8]) -> Written
    ensures { outcome result room.new ≡ Page83·write block.now ports address.now room.old }
{
    if block.len() != 512 {
        return wrote(1, 0);
    }
    if port::wrong_address(ports, address) {
        return wrote(1, 0);
    }
    if checksum::damaged(block) {
        return wrote(18, 0);
    }
    if port::wrong_port(ports) {
        return wrote(19, 0);
    }
    let grown = port::size(ports);
    if identify::carries_name(block) {
        let size = 16 + grown as usize;
        if room.len() < size {
            return wrote(8, 0);
        }
        page83_drive::store_name(room, block, 12);
        store_ports(room, 16, 12 + grown, ports, address);
        return wrote(0, size);
    }
    let size = 76 + grown as usize;
    if room.len() < size {
        return wrote(8, 0);
    }
    page83_drive::store_texts(room, block, 72);
    store_ports(room, 76, 72 + grown, ports, address);
    wrote(0, size)
}
