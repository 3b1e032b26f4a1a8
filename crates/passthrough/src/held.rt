// What a record holds: whether a reset is pending, one more order taken, and the order that is lost where a reset over it ends.
ghost use Rattle.std.specs.Prelude.{◌≡◌};
ghost use Rattle.passthrough.specs.Record.{holding as Record·holding, reset_over, reset_pending, taking as Record·taking};
ghost use Rattle.passthrough.specs.Complete.{lost as Complete·lost, lost_protocol};

use crate::Pending;
use passthrough_order::{Order, read};

// A reset is over an order.
pub fn reset_over(pending: Pending) -> bool
    ensures { result ≡ reset_over pending }
{
    pending.state == 2
}

// A reset is pending, over an order or by itself.
pub fn reset_pending(pending: Pending) -> bool
    ensures { result ≡ reset_pending pending }
{
    let order = pending.order;
    reset_over(pending) | ((pending.state != 0) & read::reset(order.protocol))
}

// The record with an order by itself.
pub fn holding(order: Order) -> Pending
    ensures { result ≡ Record·holding order }
{
    Pending {
        state: 1,
        order,
        older: passthrough_order::no_order(),
    }
}

// The record with one more order taken: by itself, or over the order that is pending.
pub fn taking(pending: Pending, order: Order) -> Pending
    ensures { result ≡ Record·taking pending order }
{
    let older = pending.order;
    if pending.state == 0 {
        return holding(order);
    }
    Pending {
        state: 2,
        order,
        older,
    }
}

// 1 where an order is lost, since a reset is over it, and else 0.
pub fn lost(pending: Pending) -> u8
    ensures { result ≡ Complete·lost pending }
{
    rules::flag(reset_over(pending))
}

// The protocol of the order that is lost, and 0 where none is.
pub fn lost_protocol(pending: Pending) -> u8
    ensures { result ≡ lost_protocol pending }
{
    let older = pending.older;
    if reset_over(pending) {
        return older.protocol;
    }
    0
}
