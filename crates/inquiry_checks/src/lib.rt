// Inquiry checks: the checks that refuse an INQUIRY, one function each; `fault` runs them in the table's order. The rules stand in
// specs/Checks.
#![tactic(auto)]

ghost use Rattle.std.specs.Prelude.{◌≡◌, Bool, true, ◌&&◌, ◌||◌, not, List, ℕ, ◌≤◌, eqb, length};
ghost use Rattle.inquiry_asked.specs.Request.{request};
ghost use Rattle.inquiry_checks.specs.Checks.{wrong_size, wrong_field, known_page, wrong_page, no_block, no_port, no_list};
ghost use Rattle.inquiry_checks.specs.Helpers.{command_refusal, early_refusal};

use port::Ports;

// Neither 512 bytes nor none.
fn wrong_block(block: usize) -> bool
    ensures { result ≡ not (eqb block 512 || eqb block 0) }
{
    if block == 512 {
        return false;
    }
    block != 0
}

// 1: a lent piece of a wrong size.
fn wrong_size(
    block: &[u8],
    signature: &[u8],
    texts: &[u8],
    ports: Ports,
    address: &[u8],
    sense: usize,
) -> bool
    ensures { result ≡ wrong_size block.now signature.now texts.now ports address.now sense }
{
    if wrong_block(block.len()) {
        return true;
    }
    if signature.len() != 20 {
        return true;
    }
    if texts.len() != 28 {
        return true;
    }
    if sense < 22 {
        return true;
    }
    // Most calls choose no port, and then the address is not looked at.
    if port::chosen(ports) {
        return port::wrong_address(ports, address);
    }
    false
}

// 4: NACA, CMDDT, or a page code without EVPD.
fn wrong_field(packet: bool, command: &[u8]) -> bool
    requires { 6 ≤ length command.now }
    ensures { result ≡ (not packet && wrong_field command.now) }
{
    if packet {
        return false;
    }
    if inquiry_fields::naca(command) {
        return true;
    }
    if inquiry_fields::cmddt(command) {
        return true;
    }
    if inquiry_fields::evpd(command) {
        return false;
    }
    command[2] != 0x00
}

// Whether a page is one of 00h, 80h, 83h, 89h.
fn known_page(code: u8) -> bool
    ensures { result ≡ known_page code }
{
    if code == 0x00 {
        return true;
    }
    if code == 0x80 {
        return true;
    }
    if code == 0x83 {
        return true;
    }
    code == 0x89
}

// 5: EVPD and a page that is not served.
fn wrong_page(packet: bool, command: &[u8]) -> bool
    requires { 6 ≤ length command.now }
    ensures { result ≡ (not packet && wrong_page command.now) }
{
    if packet {
        return false;
    }
    if inquiry_fields::evpd(command) {
        return !known_page(command[2]);
    }
    false
}

// 6: a page that is made of the block, and no block.
fn no_block(packet: bool, command: &[u8], block: &[u8]) -> bool
    requires { 6 ≤ length command.now }
    ensures { result ≡ (not packet && no_block command.now block.now) }
{
    if packet {
        return false;
    }
    if block.len() != 0 {
        return false;
    }
    if !inquiry_fields::evpd(command) {
        return true;
    }
    if command[2] == 0x80 {
        return true;
    }
    command[2] == 0x83
}

// 19: page 83h, and a port that is not 1 or 2.
fn no_port(packet: bool, command: &[u8], ports: Ports) -> bool
    requires { 6 ≤ length command.now }
    ensures { result ≡ (not packet && no_port command.now ports) }
{
    if inquiry_asked::drive_asked(packet, command) {
        return port::wrong_port(ports);
    }
    false
}

// 7: a packet drive's page 00h, and its own cannot be used.
fn no_list(packet: bool, command: &[u8], reply: &[u8]) -> bool
    requires { 6 ≤ length command.now }
    ensures { result ≡ no_list packet command.now reply.now }
{
    if !packet {
        return false;
    }
    if inquiry_asked::passes_through(packet, command) {
        return false;
    }
    if command[2] != 0x00 {
        return false;
    }
    packet::unusable(reply)
}

// The number of the first check of a whole command that applies, and 0 where none does.
fn command_fault(command: &[u8], block: &[u8], signature: &[u8], reply: &[u8], ports: Ports) -> u8
    requires { 6 ≤ length command.now }
    ensures { result ≡ command_refusal command.now block.now signature.now reply.now ports }
{
    let packet = packet::packet_drive(signature);
    if wrong_field(packet, command) {
        return 4;
    }
    if wrong_page(packet, command) {
        return 5;
    }
    if no_block(packet, command, block) {
        return 6;
    }
    if no_port(packet, command, ports) {
        return 19;
    }
    if no_list(packet, command, reply) {
        return 7;
    }
    0
}

// The number of the first check that applies, but for that of the room, and 0 where none does.
pub fn fault(
    command: &[u8],
    block: &[u8],
    signature: &[u8],
    texts: &[u8],
    reply: &[u8],
    ports: Ports,
    address: &[u8],
    sense: usize,
) -> u8
    ensures { result ≡ early_refusal (request command.now block.now signature.now texts.now reply.now ports address.now) sense }
{
    if wrong_size(block, signature, texts, ports, address, sense) {
        return 1;
    }
    if checksum::damaged(block) {
        return 18;
    }
    if command.len() == 0 {
        return 2;
    }
    if command[0] != 0x12 {
        return 3;
    }
    if command.len() < 6 {
        return 2;
    }
    command_fault(command, block, signature, reply, ports)
}
