// Pass-through end: how an order ends, by what the drive reports and the order's own flags: its status, and what its sense data tell. The
// rule stands in specs/End.
#![tactic(auto)]

ghost use Rattle.std.specs.Prelude.{◌≡◌, ◌≤◌, length};
ghost use Rattle.passthrough_end.specs.End.{failed as End·failed, end_status, end_sense};

use passthrough_order::Order;

// Whether the drive reports an error: ERR or DF in its status.
fn failed(registers: &[u8]) -> bool
    requires { length registers.now ≡ 11 }
    ensures { result ≡ End·failed registers.now }
{
    rules::bit(registers[10], 0) | rules::bit(registers[10], 5)
}

// Writes the sense data of an order's end, where it has any, and gives its status.
pub fn tell(order: Order, registers: &[u8], form: u8, sense: &mut [u8]) -> u8
    requires { (length registers.now ≡ 11) × (22 ≤ length sense.old) }
    ensures status { result ≡ end_status order registers.now }
    ensures sense { sense.new ≡ end_sense order registers.now form sense.old }
{
    let failed = failed(registers);
    let checked = order.ck_cond != 0;
    let extend = order.extend != 0;
    if failed {
        sense::report(sense, form, 0x0B, 0x00, 0x00, extend, registers);
        return refusals::CHECK_CONDITION;
    }
    if checked {
        sense::report(sense, form, 0x01, 0x00, 0x1D, extend, registers);
        return refusals::CHECK_CONDITION;
    }
    refusals::GOOD
}
