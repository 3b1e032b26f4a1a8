// Port: the target ports that a page 83h tells: which are chosen, and their descriptors, each put into the room behind the one before.
// The rules stand in specs/Ports.
#![tactic(auto)]

ghost use Rattle.std.specs.Prelude.{◌≡◌, Bool, false, ◌||◌, List, ℕ, ◌+◌, ◌≤◌, length};
ghost use Rattle.room.specs.Room.{Wrote};
ghost use Rattle.port.specs.Ports.{relative_chosen, sas_chosen, is_port, relative_part, sas_part, ports_part, wrong_address, wrong_port};
ghost use Rattle.port.specs.Helpers.{ports_size};

// The target ports that a caller chooses: bit 0 the relative one, whose number stands beside it, bit 1 the SAS one, whose address is
// lent.
#[repr(C)]
#[derive(Clone, Copy)]
pub struct Ports {
    pub chosen: u16,
    pub relative: u16,
}

// What the descriptor of a relative target port starts with: PROTOCOL IDENTIFIER SAS and CODE SET binary; PIV, ASSOCIATION target
// port and DESIGNATOR TYPE relative target port; DESIGNATOR LENGTH; two reserved bytes.
pub const RELATIVE_HEAD: [u8; 6] = [0x61, 0x94, 0x00, 0x04, 0x00, 0x00];

// What that of a SAS target port starts with: the same, but for DESIGNATOR TYPE NAA and its length.
pub const SAS_HEAD: [u8; 4] = [0x61, 0x93, 0x00, 0x08];

// A choice of no port.
pub fn no_ports() -> Ports
    ensures { result ≡ record { chosen = 0; relative = 0 } }
{
    Ports {
        chosen: 0,
        relative: 0,
    }
}

// Whether the relative target port is chosen.
pub fn relative_chosen(ports: Ports) -> bool
    ensures { result ≡ relative_chosen ports }
{
    ports.chosen % 2 == 1
}

// Whether the SAS target port is chosen.
pub fn sas_chosen(ports: Ports) -> bool
    ensures { result ≡ sas_chosen ports }
{
    ports.chosen / 2 % 2 == 1
}

// Whether any of the two is chosen.
pub fn chosen(ports: Ports) -> bool
    ensures { result ≡ (relative_chosen ports || sas_chosen ports) }
{
    relative_chosen(ports) | sas_chosen(ports)
}

// 1: a chosen address that is not of 8 bytes.
pub fn wrong_address(ports: Ports, address: &[u8]) -> bool
    ensures { result ≡ wrong_address ports address.now }
{
    if sas_chosen(ports) {
        return address.len() != 8;
    }
    false
}

// Whether a number is one that a relative target port has.
pub fn is_port(number: u16) -> bool
    ensures { result ≡ is_port number }
{
    (number == 1) | (number == 2)
}

// 19: a chosen relative target port that is not 1 or 2.
pub fn wrong_port(ports: Ports) -> bool
    ensures { result ≡ wrong_port ports }
{
    if relative_chosen(ports) {
        return !is_port(ports.relative);
    }
    false
}

// The bytes of the descriptors that are chosen.
pub fn size(ports: Ports) -> u8
    ensures value { result ≡ ports_size ports }
    ensures most { result ≤ 20 }
{
    if relative_chosen(ports) {
        if sas_chosen(ports) {
            return 20;
        }
        return 8;
    }
    if sas_chosen(ports) {
        return 12;
    }
    0
}

// The relative target port, where it is chosen, in room that holds it; where its descriptor ends comes back.
fn store_relative(room: &mut [u8], at: usize, ports: Ports) -> usize
    requires { at + length (relative_part ports) ≤ length room.old }
    ensures end { result ≡ at + length (relative_part ports) }
    ensures room { Wrote room.old at (relative_part ports) room.new }
{
    if relative_chosen(ports) {
        let high = (ports.relative / 256) as u8;
        let low = (ports.relative % 256) as u8;
        room::store_four(room, at, 0x61, 0x94, 0x00, 0x04);
        room::store_four(room, at + 4, 0x00, 0x00, high, low);
        return at + 8;
    }
    at
}

// The SAS target port, where it is chosen, in room that holds it.
fn store_sas(room: &mut [u8], at: usize, ports: Ports, address: &[u8])
    requires { (wrong_address ports address.now ≡ false) × (at + length (sas_part ports address.now) ≤ length room.old) }
    ensures { Wrote room.old at (sas_part ports address.now) room.new }
{
    if sas_chosen(ports) {
        room::store(room, at, &SAS_HEAD);
        room::store(room, at + 4, &address[..8]);
    }
}

// Writes the descriptors that are chosen into room that holds them.
pub fn store(room: &mut [u8], at: usize, ports: Ports, address: &[u8])
    requires { (wrong_address ports address.now ≡ false) × (at + length (ports_part ports address.now) ≤ length room.old) }
    ensures { Wrote room.old at (ports_part ports address.now) room.new }
{
    let end = store_relative(room, at, ports);
    store_sas(room, end, ports, address);
}

// The relative target port, as much of it as fits, where it is chosen; where its descriptor ends comes back.
fn put_relative(room: &mut [u8], ports: Ports) -> usize
    ensures end { result ≡ length (relative_part ports) }
    ensures room { Wrote room.old 0 (relative_part ports) room.new }
{
    if relative_chosen(ports) {
        let bytes = [
            0x61u8,
            0x94u8,
            0x00u8,
            0x04u8,
            0x00u8,
            0x00u8,
            (ports.relative / 256) as u8,
            (ports.relative % 256) as u8,
        ];
        room::put_short(room, 0, &bytes);
        return 8;
    }
    0
}

// The SAS target port, as much of it as fits, where it is chosen.
fn put_sas(room: &mut [u8], ports: Ports, address: &[u8])
    requires { wrong_address ports address.now ≡ false }
    ensures { Wrote room.old 0 (sas_part ports address.now) room.new }
{
    if sas_chosen(ports) {
        room::put_short(room, 0, &SAS_HEAD);
        room::put_short(room, 4, address);
    }
}

// Writes the descriptors that are chosen, as much of them as fits: the SAS one into the room that is left behind the relative one.
pub fn put(room: &mut [u8], ports: Ports, address: &[u8])
    requires { wrong_address ports address.now ≡ false }
    ensures { Wrote room.old 0 (ports_part ports address.now) room.new }
{
    let end = put_relative(room, ports);
    let behind = rules::lesser(end, room.len());
    put_sas(&mut room[behind..], ports, address);
}
