// Buildable: whether a command makes an order, and the fields of the one that does. The rules stand in specs/: Fields and Buildable.
#![tactic(auto)]

pub mod fields;

ghost use Rattle.std.specs.Prelude.{◌≡◌};
ghost use Rattle.buildable.specs.Buildable.{every, without_upper, has_direction, of_reset, buildable as Buildable·buildable};
ghost use Rattle.buildable.specs.Helpers.{protocol_fit};

use passthrough_order::{Order, read};

// No register has an upper byte.
fn without_upper(order: Order) -> bool
    ensures { result ≡ every (without_upper order) }
{
    (order.features < 256)
        & (order.count < 256)
        & (order.lba_low < 256)
        & (order.lba_mid < 256)
        & (order.lba_high < 256)
}

// What has to hold of a reset: it has nothing but its protocol and its quiet seconds.
fn of_reset(order: Order) -> bool
    ensures { result ≡ every (of_reset order) }
{
    (order.length == 0)
        & (order.features == 0)
        & (order.count == 0)
        & (order.lba_low == 0)
        & (order.lba_mid == 0)
        & (order.lba_high == 0)
        & (order.sectors_per_block == 1)
        & (order.device == 0)
        & (order.command == 0)
        & (order.ck_cond == 0)
        & (order.extend == 0)
        & (order.direction == 0)
}

// The protocol's data can go in this direction.
fn has_direction(protocol: u8, direction: u8) -> bool
    ensures { result ≡ has_direction protocol direction }
{
    if direction == 1 {
        return !read::to_drive(protocol);
    }
    (direction == 2) & !read::from_drive(protocol)
}

// The order is as its protocol has orders: with a length and a direction, with neither, or with nothing.
fn protocol_fit(order: Order) -> bool
    ensures { result ≡ protocol_fit order }
{
    if read::with_data(order.protocol) {
        return (order.length != 0) & has_direction(order.protocol, order.direction);
    }
    if read::without_data(order.protocol) {
        return (order.length == 0) & (order.direction == 0);
    }
    if read::reset(order.protocol) {
        return of_reset(order);
    }
    false
}

// Some command makes the order: the first test that fails answers. A reset is asked what a command is, too; one that has nothing else
// passes that.
pub fn buildable(order: Order) -> bool
    ensures { result ≡ Buildable·buildable order }
{
    if 4 <= fields::off_line(order.quiet_seconds) {
        return false;
    }
    if 0 < order.auxiliary {
        return false;
    }
    if 8 <= fields::multiple_count(order.sectors_per_block) {
        return false;
    }
    if 2 <= order.ck_cond {
        return false;
    }
    if 2 <= order.extend {
        return false;
    }
    if !protocol_fit(order) {
        return false;
    }
    if order.extend == 1 {
        return true;
    }
    without_upper(order)
}
