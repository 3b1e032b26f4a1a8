// Page 83h reader: reads a page 83h, and gives back the name and the ports that went in. The rule stands in specs/Reader.
#![tactic(auto)]

ghost use Rattle.std.specs.Prelude.{◌≡◌, Bool, true, cond, List, ◌≤◌, eqb, length, take, drop};
ghost use Rattle.page83_reader.specs.Reader.{no_zero, headed as Reader·headed, names_drive, tells_texts, relative_in, behind_relative, sas_or_nothing, ports_of, address_of, in_sixty, refused as Reader·refused, told as Reader·told, read as Reader·read};

use page83_drive::{NAME_HEAD, TEXT_HEAD};
use port::{Ports, RELATIVE_HEAD, SAS_HEAD};

// What the reader gives: 0 or 16, the form (1 the world wide name, 2 model and serial number, 0 refused), the name's bytes, the ports
// behind it and the address of the SAS one.
#[repr(C)]
#[derive(Clone, Copy)]
pub struct Name {
    pub number: u8,
    pub form: u8,
    pub name: [u8; 60],
    pub ports: Ports,
    pub address: [u8; 8],
}

fn no_zero(bytes: &[u8]) -> bool
    ensures { result ≡ no_zero bytes.now }
{
    let mut i = 0;
    while i < bytes.len() {
        if bytes[i] == 0 {
            return false;
        }
        i += 1;
    }
    true
}

// Whether the head is that of a page 83h of this size.
fn headed(page: &[u8]) -> bool
    ensures { result ≡ Reader·headed page.now }
{
    if page.len() < 4 {
        return false;
    }
    if page.len() - 4 != rules::byte(page, 3) as usize {
        return false;
    }
    (page[0] == 0x00) & (page[1] == 0x83) & (page[2] == 0x00)
}

// Whether a page names a drive by its world wide name.
fn names_drive(page: &[u8]) -> bool
    ensures { result ≡ names_drive page.now }
{
    if page.len() < 16 {
        return false;
    }
    if identify::same_bytes(&page[4..8], &NAME_HEAD) {
        return identify::some_bit(&page[8..16]);
    }
    false
}

// Whether a page tells a drive's texts.
fn tells_texts(page: &[u8]) -> bool
    ensures { result ≡ tells_texts page.now }
{
    if page.len() < 76 {
        return false;
    }
    if identify::same_bytes(&page[4..16], &TEXT_HEAD) {
        return no_zero(&page[16..76]);
    }
    false
}

// The number of the relative target port that bytes start with, and 0 where they start with none.
fn relative_in(bytes: &[u8]) -> u16
    ensures { result ≡ relative_in bytes.now }
{
    if identify::same_bytes(rules::part(bytes, 0, 6), &RELATIVE_HEAD) {
        let number = rules::pair(rules::byte(bytes, 6), rules::byte(bytes, 7));
        if port::is_port(number) {
            return number;
        }
    }
    0
}

// What follows it: all bytes where there is none.
fn behind_relative(bytes: &[u8], relative: u16) -> &[u8]
    requires { relative ≡ relative_in bytes.now }
    ensures { result.now ≡ behind_relative bytes.now }
{
    if relative == 0 {
        return bytes;
    }
    &bytes[8..]
}

// Whether bytes are a SAS target port, or none.
fn sas_or_nothing(bytes: &[u8]) -> bool
    ensures { result ≡ sas_or_nothing bytes.now }
{
    if bytes.len() == 0 {
        return true;
    }
    if bytes.len() != 12 {
        return false;
    }
    identify::same_bytes(&bytes[..4], &SAS_HEAD)
}

// The ports, by the number of the relative one, or 0, and whether there is a SAS one.
fn ports_of(relative: u16, sas: bool) -> Ports
    ensures { result ≡ ports_of relative sas }
{
    let chosen = rules::flag(relative != 0) + 2 * rules::flag(sas);
    Ports {
        chosen: chosen as u16,
        relative,
    }
}

// The address in a SAS target port, and zeros where there is none.
fn address_of(sas: &[u8]) -> [u8; 8]
    requires { sas_or_nothing sas.now ≡ true }
    ensures { result ≡ address_of sas.now }
{
    let mut address = [0x00u8; 8];
    if sas.len() == 12 {
        room::store(&mut address, 0, &sas[4..12]);
    }
    address
}

// The bytes at the front of 60 that are zero behind them.
fn in_sixty(bytes: &[u8]) -> [u8; 60]
    ensures { result ≡ in_sixty bytes.now }
{
    let mut name = [0x00u8; 60];
    room::put(&mut name, 0, bytes);
    name
}

// What comes of a page that the writer cannot make.
fn refused() -> Name
    ensures { result ≡ Reader·refused }
{
    Name {
        number: 16,
        form: 0,
        name: [0x00u8; 60],
        ports: port::no_ports(),
        address: [0x00u8; 8],
    }
}

// A name, in 60 bytes, and the ports that stand behind it.
fn told(form: u8, name: [u8; 60], behind: &[u8]) -> Name
    ensures { result ≡ Reader·told form name behind.now }
{
    let relative = relative_in(behind);
    let sas = behind_relative(behind, relative);
    if !sas_or_nothing(sas) {
        return refused();
    }
    Name {
        number: 0,
        form,
        name,
        ports: ports_of(relative, sas.len() != 0),
        address: address_of(sas),
    }
}

// The form in which a page names a drive, and 0 where it does not.
fn form_of(page: &[u8]) -> u8
    ensures { result ≡ cond (names_drive page.now) 1 (cond (tells_texts page.now) 2 0) }
{
    if names_drive(page) {
        return 1;
    }
    if tells_texts(page) {
        return 2;
    }
    0
}

// The name that a page of a form tells, in 60 bytes.
fn name_of(page: &[u8], form: u8) -> [u8; 60]
    ensures { result ≡ cond (eqb form 1) (in_sixty (take 8 (drop 8 page.now))) (in_sixty (take 60 (drop 16 page.now))) }
{
    if form == 1 {
        return in_sixty(rules::part(page, 8, 16));
    }
    in_sixty(rules::part(page, 16, 76))
}

// What stands behind the name of such a page.
fn behind_name(page: &[u8], form: u8) -> &[u8]
    requires { (form ≡ 1 → 16 ≤ length page.now) × ((form ≡ 1 → ⊥) → 76 ≤ length page.now) }
    ensures { result.now ≡ cond (eqb form 1) (drop 16 page.now) (drop 76 page.now) }
{
    if form == 1 {
        return &page[16..];
    }
    &page[76..]
}

// The name that a page tells, and its ports. The ports are looked at in one place for both forms, so that the answer is made where it
// is wanted.
pub fn read(page: &[u8]) -> Name
    ensures { result ≡ Reader·read page.now }
{
    if !headed(page) {
        return refused();
    }
    let form = form_of(page);
    if form == 0 {
        return refused();
    }
    told(form, name_of(page, form), behind_name(page, form))
}
