// Builder: the pass-through command that makes an order, or 23 where none does. The rule stands in specs/Builder.
#![tactic(auto)]

mod packed;

ghost use Rattle.std.specs.Prelude.{◌≡◌, true, ◌++◌, replicate};
ghost use Rattle.buildable.specs.Buildable.{buildable};
ghost use Rattle.builder.specs.Helpers.{bytes_of};
ghost use Rattle.builder.specs.Builder.{first_flags, second_flags, upper as Builder·upper, lower as Builder·lower, short as Builder·short, long as Builder·long, built as Builder·built, build as Builder·build};

use buildable::fields;
use packed::Packed;
use passthrough_order::Order;

// What comes back of an order: 0 and the command, whose first `size` bytes, 12 or 16, are to be sent, with zeros behind them; or 23, size
// 0 and zeros.
#[repr(C)]
#[derive(Clone, Copy)]
pub struct Built {
    pub number: u8,
    pub size: u8,
    pub command: [u8; 16],
}

// The upper and the lower byte of a register.
fn upper(register: u16) -> u8
    ensures { result ≡ Builder·upper register }
{
    (register / 256) as u8
}

fn lower(register: u16) -> u8
    ensures { result ≡ Builder·lower register }
{
    (register % 256) as u8
}

// Byte 1.
fn first_flags(order: Order) -> u8
    requires { buildable order ≡ true }
    ensures { result ≡ first_flags order }
{
    32 * fields::multiple_count(order.sectors_per_block) + 2 * order.protocol + order.extend
}

// Byte 2.
fn second_flags(order: Order) -> u8
    requires { buildable order ≡ true }
    ensures { result ≡ second_flags order }
{
    let quiet = 64 * fields::off_line(order.quiet_seconds);
    let from = 8 * fields::t_dir(order.direction);
    quiet
        + 32 * order.ck_cond
        + from
        + fields::length_bits(order.length, order.count, order.features)
}

// The 12-byte form, and zeros behind it.
fn short(order: Order) -> Packed
    requires { buildable order ≡ true }
    ensures { bytes_of result ≡ Builder·short order ++ replicate 4 0 }
{
    Packed {
        first: packed::eight(
            0xA1,
            first_flags(order),
            second_flags(order),
            lower(order.features),
            lower(order.count),
            lower(order.lba_low),
            lower(order.lba_mid),
            lower(order.lba_high),
        ),
        second: packed::eight(order.device, order.command, 0, 0, 0, 0, 0, 0),
    }
}

// The 16-byte form.
fn long(order: Order) -> Packed
    requires { buildable order ≡ true }
    ensures { bytes_of result ≡ Builder·long order }
{
    Packed {
        first: packed::eight(
            0x85,
            first_flags(order),
            second_flags(order),
            upper(order.features),
            lower(order.features),
            upper(order.count),
            lower(order.count),
            upper(order.lba_low),
        ),
        second: packed::eight(
            lower(order.lba_low),
            upper(order.lba_mid),
            lower(order.lba_mid),
            upper(order.lba_high),
            lower(order.lba_high),
            order.device,
            order.command,
            0,
        ),
    }
}

// A command of this size.
fn made(size: u8, packed: Packed) -> Built
    ensures { result ≡ Builder·built 0 size (bytes_of packed) }
{
    let command = packed::bytes(packed);
    Built {
        number: 0,
        size,
        command,
    }
}

// The command that makes an order.
pub fn build(order: Order) -> Built
    ensures { result ≡ Builder·build order }
{
    if !buildable::buildable(order) {
        return Built {
            number: 23,
            size: 0,
            command: [0; 16],
        };
    }
    if order.extend == 0 {
        return made(12, short(order));
    }
    made(16, long(order))
}
