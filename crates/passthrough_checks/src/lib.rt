// Pass-through checks: one function each, and `fault` runs them in the table's order. The rules stand in specs/Checks.
#![tactic(auto)]

ghost use Rattle.std.specs.Prelude.{◌≡◌, ◌<◌, length};
ghost use Rattle.rules.specs.First.{first};
ghost use Rattle.passthrough_checks.specs.Checks.{wrong_size, wrong_protocol, waits as Checks·waits, wrong_length, wrong_direction};
ghost use Rattle.passthrough_checks.specs.Helpers.{block_checks, sized_checks, longest_checks, form_checks, field_checks, data_checks, early_refusal};

use passthrough_order::read;

// 1: a lent piece has not its size.
pub fn wrong_size(registers: usize, sense: usize) -> bool
    ensures { result ≡ wrong_size registers sense }
{
    (registers != 11) | (sense < 22)
}

// 1 and 18, of the block that the later edition is lent; the first does not look at it.
fn block_fault(later: bool, block: &[u8]) -> u8
    ensures { result ≡ first (block_checks later block.now) }
{
    if !later {
        return 0;
    }
    if !((block.len() == 512) | (block.len() == 0)) {
        return 1;
    }
    if checksum::damaged(block) {
        return 18;
    }
    0
}

// 2 and 4: fewer bytes than the form's size, or NACA in its control byte.
fn sized_fault(command: &[u8], size: usize, control: usize) -> u8
    requires { control < size }
    ensures { result ≡ first (sized_checks command.now size control) }
{
    if command.len() < size {
        return 2;
    }
    if rules::bit(command[control], 2) {
        return 4;
    }
    0
}

// 3, 2, 4 and 20 of the 32-byte form, which is served in the later edition, and shares its opcode with other commands.
fn longest_fault(later: bool, command: &[u8]) -> u8
    ensures { result ≡ first (longest_checks later command.now) }
{
    if !later {
        return 3;
    }
    let of_size = sized_fault(command, 32, 1);
    if of_size != 0 {
        return of_size;
    }
    if !passthrough_fields::service_action(command) {
        return 20;
    }
    0
}

// 3, 2, 4 and 20, by the form.
fn form_fault(later: bool, command: &[u8]) -> u8
    requires { 0 < length command.now }
    ensures { result ≡ first (form_checks later command.now) }
{
    if passthrough_fields::longest(command) {
        return longest_fault(later, command);
    }
    if passthrough_fields::long(command) {
        return sized_fault(command, 16, 15);
    }
    if command[0] == 0xA1 {
        return sized_fault(command, 12, 11);
    }
    3
}

// 9: a protocol that is not served.
fn wrong_protocol(protocol: u8) -> bool
    ensures { result ≡ wrong_protocol protocol }
{
    (protocol == 2) | (protocol == 7) | (protocol == 12) | (protocol == 13) | (protocol == 14)
}

// 10: an order waits for whatever is pending, a reset for a reset alone.
fn waits(pending: bool, reset_pending: bool, protocol: u8) -> bool
    ensures { result ≡ Checks·waits pending reset_pending protocol }
{
    if read::reset(protocol) {
        return reset_pending;
    }
    pending & (protocol != 15)
}

// 11: T_LENGTH does not fit the protocol.
fn wrong_length(protocol: u8, t_length: u8) -> bool
    ensures { result ≡ wrong_length protocol t_length }
{
    if t_length != 0 {
        return read::without_data(protocol);
    }
    read::with_data(protocol)
}

// 12: T_DIR does not fit the protocol.
fn wrong_direction(protocol: u8, from: bool) -> bool
    ensures { result ≡ wrong_direction protocol from }
{
    if from {
        return read::to_drive(protocol);
    }
    read::from_drive(protocol)
}

// 9 to 12, which look at fields of the command alone, and at what is pending.
fn field_fault(pending: bool, reset_pending: bool, protocol: u8, t_length: u8, from: bool) -> u8
    ensures { result ≡ first (field_checks pending reset_pending protocol t_length from) }
{
    if wrong_protocol(protocol) {
        return 9;
    }
    if waits(pending, reset_pending, protocol) {
        return 10;
    }
    if wrong_length(protocol, t_length) {
        return 11;
    }
    if wrong_direction(protocol, from) {
        return 12;
    }
    0
}

// 6, 13 and 14 of a command with data: its length lacks the size of a sector, or is 0, or above the declared length.
pub fn length_fault(has_data: bool, lacking: bool, bytes: u64, declared: u32) -> u8
    ensures { result ≡ first (data_checks has_data lacking bytes declared) }
{
    if !has_data {
        return 0;
    }
    if lacking {
        return 6;
    }
    if bytes == 0 {
        return 13;
    }
    if (declared as u64) < bytes {
        return 14;
    }
    0
}

// The number of the first check that applies, but for those of the length, and 0 where none does.
pub fn fault(
    pending: bool,
    reset_pending: bool,
    later: bool,
    command: &[u8],
    registers: usize,
    block: &[u8],
    sense: usize,
) -> u8
    ensures { result ≡ early_refusal pending reset_pending later command.now registers block.now sense }
{
    if wrong_size(registers, sense) {
        return 1;
    }
    let of_block = block_fault(later, block);
    if of_block != 0 {
        return of_block;
    }
    if command.len() == 0 {
        return 2;
    }
    let of_form = form_fault(later, command);
    if of_form != 0 {
        return of_form;
    }
    let protocol = passthrough_fields::protocol(command);
    let t_length = passthrough_fields::t_length(command);
    field_fault(
        pending,
        reset_pending,
        protocol,
        t_length,
        passthrough_fields::t_dir(command),
    )
}
