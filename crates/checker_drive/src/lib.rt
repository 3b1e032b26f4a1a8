// Checker, page 83h: that of a capture, beside the page of the block with the ports that it tells itself. The rules stand in specs/Ports.
#![tactic(auto)]

ghost use Rattle.std.specs.Prelude.{◌≡◌, Bool, List, ◌+◌, ◌≤◌, length, drop};
ghost use Rattle.identify.specs.Block.{serial, model, name};
ghost use Rattle.identify.specs.Names.{carries_name};
ghost use Rattle.texts.specs.Text.{turned, spaced};
ghost use Rattle.page83_drive.specs.Helpers.{drive_end};
ghost use Rattle.port.specs.Ports.{relative_part, sas_part, ports_part};
ghost use Rattle.page83_drive.specs.Descriptor.{name_descriptor, text_descriptor, drive_descriptor};
ghost use Rattle.page83.specs.Page83.{page83 as Page83·page83};
ghost use Rattle.agreement.specs.Agreed.{agreed};
ghost use Rattle.agreement.specs.Helpers.{beside};
ghost use Rattle.checker_drive.specs.Ports.{chosen_by, port_by, ports_in, address_in, claimed_page};

use agreement::{Held, beside};
use port::Ports;

// Which ports follow a drive's descriptor of a size, by the size of all descriptors.
fn chosen_by(drive: usize, size: usize) -> u16
    requires { drive ≤ 72 }
    ensures { result ≡ chosen_by drive size }
{
    if size == drive + 8 {
        return 1;
    }
    if size == drive + 12 {
        return 2;
    }
    if size == drive + 20 {
        return 3;
    }
    0
}

// The number of a relative target port, by its last byte.
fn port_by(byte: u8) -> u16
    ensures { result ≡ port_by byte }
{
    if byte == 2 {
        return 2;
    }
    1
}

// The ports that a page tells behind the drive's descriptor.
fn ports_in(page: &[u8], end: usize) -> Ports
    requires { (4 ≤ end) × (end ≤ 76) }
    ensures { result ≡ ports_in end page.now }
{
    Ports {
        chosen: chosen_by(end - 4, rules::byte(page, 3) as usize),
        relative: port_by(rules::byte(page, end + 7)),
    }
}

// Where the drive's descriptor ends, by whether it is a name.
fn drive_end(named: bool) -> usize
    ensures { result ≡ drive_end named }
{
    if named {
        return 16;
    }
    76
}

// Up to where the name's descriptor agrees.
fn name_place(bytes: &[u8], block: &[u8]) -> usize
    requires { (4 ≤ length bytes.now) × (length block.now ≡ 512) }
    ensures { result ≡ 4 + agreed (drop 4 bytes.now) (name_descriptor (turned (name block.now))) }
{
    let at = agreement::bytes(bytes, 4, &page83_drive::NAME_HEAD);
    if at < 8 {
        return at;
    }
    agreement::text(bytes, 8, identify::name(block), false)
}

// Up to where that of the texts does.
fn texts_place(bytes: &[u8], block: &[u8]) -> usize
    requires { (4 ≤ length bytes.now) × (length block.now ≡ 512) }
    ensures { result ≡ 4 + agreed (drop 4 bytes.now) (text_descriptor (spaced (turned (model block.now))) (spaced (turned (serial block.now)))) }
{
    let at = agreement::bytes(bytes, 4, &page83_drive::TEXT_HEAD);
    if at < 16 {
        return at;
    }
    let at = agreement::text(bytes, 16, identify::model(block), true);
    if at < 56 {
        return at;
    }
    agreement::text(bytes, 56, identify::serial(block), true)
}

// Up to where the drive's descriptor does.
fn drive_place(bytes: &[u8], block: &[u8], named: bool) -> usize
    requires { (4 ≤ length bytes.now) × ((length block.now ≡ 512) × (carries_name block.now ≡ named)) }
    ensures { result ≡ 4 + agreed (drop 4 bytes.now) (drive_descriptor block.now) }
{
    if named {
        return name_place(bytes, block);
    }
    texts_place(bytes, block)
}

// Up to where the relative target port does, where it is chosen.
fn relative_place(bytes: &[u8], at: usize, ports: Ports) -> usize
    requires { at ≤ length bytes.now }
    ensures { result ≡ at + agreed (drop at bytes.now) (relative_part ports) }
{
    if port::relative_chosen(ports) {
        let high = (ports.relative / 256) as u8;
        let low = (ports.relative % 256) as u8;
        let descriptor = [0x61u8, 0x94u8, 0x00u8, 0x04u8, 0x00u8, 0x00u8, high, low];
        return agreement::bytes(bytes, at, &descriptor);
    }
    at
}

// Up to where the SAS target port does, where it is chosen: its address is the field's own.
fn sas_place(bytes: &[u8], at: usize, ports: Ports) -> usize
    requires { (at ≤ length bytes.now) × (at ≤ 84) }
    ensures { result ≡ at + agreed (drop at bytes.now) (sas_part ports (address_in at bytes.now)) }
{
    if port::sas_chosen(ports) {
        let head = agreement::bytes(bytes, at, &port::SAS_HEAD);
        if head < at + 4 {
            return head;
        }
        return rules::lesser(bytes.len(), at + 12);
    }
    at
}

// The size of the relative target port's descriptor, where it is chosen.
fn relative_size(ports: Ports) -> usize
    ensures { result ≡ length (relative_part ports) }
{
    if port::relative_chosen(ports) {
        return 8;
    }
    0
}

// Up to where both do.
fn ports_place(bytes: &[u8], at: usize, ports: Ports) -> usize
    requires { (at ≤ length bytes.now) × (at ≤ 76) }
    ensures { result ≡ at + agreed (drop at bytes.now) (ports_part ports (address_in (at + length (relative_part ports)) bytes.now)) }
{
    let next = at + relative_size(ports);
    let relative = relative_place(bytes, at, ports);
    if relative < next {
        return relative;
    }
    sas_place(bytes, next, ports)
}

// Up to where the page of a block with ports does.
fn page_place(bytes: &[u8], block: &[u8], named: bool, ports: Ports) -> usize
    requires { (length block.now ≡ 512) × (carries_name block.now ≡ named) }
    ensures { result ≡ agreed bytes.now (Page83·page83 block.now ports (address_in (drive_end named + length (relative_part ports)) bytes.now)) }
{
    let end = drive_end(named);
    let head = [0x00u8, 0x83u8, 0x00u8, (end - 4) as u8 + port::size(ports)];
    let at = agreement::bytes(bytes, 0, &head);
    if at < 4 {
        return at;
    }
    let at = drive_place(bytes, block, named);
    if at < end {
        return at;
    }
    ports_place(bytes, end, ports)
}

// 83h.
pub fn names(bytes: &[u8], block: &[u8]) -> Held
    requires { length block.now ≡ 512 }
    ensures { result ≡ beside bytes.now (claimed_page block.now bytes.now) }
{
    let named = identify::carries_name(block);
    let end = drive_end(named);
    let ports = ports_in(bytes, end);
    let place = page_place(bytes, block, named, ports);
    beside::held(bytes.len(), place, end + port::size(ports) as usize)
}
