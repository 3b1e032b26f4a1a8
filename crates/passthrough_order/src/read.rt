// Reading a command into an order.
ghost use Rattle.std.specs.Prelude.{◌≡◌, ◌<◌, ◌^◌};
ghost use Rattle.passthrough_fields.specs.Helpers.{Whole, sent_of};
ghost use Rattle.passthrough_order.specs.Order.{without_data, from_drive, to_drive, with_data, reset as Order·reset, direction_of, quiet_seconds, reset_order, command_order};

use crate::Order;
use passthrough_fields::sent::Sent;

// Protocols by number: without data, from the drive, to the drive, and all that have data.
pub fn without_data(protocol: u8) -> bool
    ensures { result ≡ without_data protocol }
{
    (protocol == 3) | (protocol == 8) | (protocol == 9)
}

pub fn from_drive(protocol: u8) -> bool
    ensures { result ≡ from_drive protocol }
{
    (protocol == 4) | (protocol == 10)
}

pub fn to_drive(protocol: u8) -> bool
    ensures { result ≡ to_drive protocol }
{
    (protocol == 5) | (protocol == 11)
}

pub fn with_data(protocol: u8) -> bool
    ensures { result ≡ with_data protocol }
{
    from_drive(protocol) | to_drive(protocol) | (protocol == 6)
}

// Protocols 0 and 1.
pub fn reset(protocol: u8) -> bool
    ensures { result ≡ Order·reset protocol }
{
    (protocol == 0) | (protocol == 1)
}

// The direction, from PROTOCOL and T_DIR alone.
fn direction(protocol: u8, from: bool) -> u8
    ensures { result ≡ direction_of protocol from }
{
    if !with_data(protocol) {
        return 0;
    }
    2 - rules::flag(from)
}

fn power(exponent: u8) -> u16
    requires { exponent < 8 }
    ensures { result ≡ 2 ^ exponent }
{
    1u16 << exponent
}

fn quiet_seconds(off_line: u8) -> u16
    requires { off_line < 4 }
    ensures { result ≡ quiet_seconds off_line }
{
    power(off_line + 1) - 2
}

// The order of a reset: protocol and quiet seconds, and nothing else of the command.
pub fn reset_order(command: &[u8]) -> Order
    requires { Whole command.now }
    ensures { result ≡ reset_order command.now }
{
    Order {
        length: 0,
        auxiliary: 0,
        features: 0,
        count: 0,
        lba_low: 0,
        lba_mid: 0,
        lba_high: 0,
        quiet_seconds: quiet_seconds(passthrough_fields::off_line(command)),
        sectors_per_block: 1,
        device: 0,
        command: 0,
        protocol: passthrough_fields::protocol(command),
        ck_cond: 0,
        extend: 0,
        direction: 0,
    }
}

// The order of any other command, with what it sends and the length of its data.
pub fn command_order(command: &[u8], sent: Sent, length: u64) -> Order
    requires { Whole command.now × (sent ≡ sent_of command.now) × (length < 2 ^ 32) }
    ensures { result ≡ command_order command.now length }
{
    let protocol = passthrough_fields::protocol(command);
    let from = passthrough_fields::t_dir(command);
    let opcode = sent.command;
    Order {
        length: length as u32,
        auxiliary: sent.auxiliary,
        features: sent.features,
        count: sent.count,
        lba_low: sent.lba_low,
        lba_mid: sent.lba_mid,
        lba_high: sent.lba_high,
        quiet_seconds: quiet_seconds(passthrough_fields::off_line(command)),
        sectors_per_block: power(passthrough_fields::multiple_count(command)),
        device: sent.device,
        command: opcode,
        protocol,
        ck_cond: rules::flag(passthrough_fields::ck_cond(command)),
        extend: rules::flag(sent.extend),
        direction: direction(protocol, from),
    }
}
