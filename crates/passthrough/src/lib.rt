// Pass-through: the record that holds what is pending, an order or an order with a reset over it, a command submitted to it, and the
// completion. The rules stand in specs/: Record, Submit and Complete.
#![tactic(auto)]

mod held;

ghost use Rattle.std.specs.Prelude.{◌≡◌};
ghost use Rattle.passthrough_order.specs.Order.{no_order};
ghost use Rattle.passthrough.specs.Record.{empty as Record·empty};
ghost use Rattle.passthrough.specs.Submit.{outcome as Submit·outcome, none_taken, answer as Submit·answer, submit as Submit·submit};
ghost use Rattle.passthrough.specs.Complete.{outcome as Complete·outcome, answer as Complete·answer, complete as Complete·complete};

use passthrough_fields::sent;
use passthrough_order::{Order, read};

// The editions by which a command may be read; every number but the later's names the first.
pub const FIRST: u8 = 1;

pub const LATER: u8 = 2;

// The pending record. State 0 holds nothing, 2 an order with a reset over it, and every other number an order. `order` is what
// completion ends, `older` the order under a reset. Numbers only, and no gaps between them, so that C code can hold it as it is.
#[repr(C)]
#[derive(Clone, Copy)]
pub struct Pending {
    pub state: u32,
    pub order: Order,
    pub older: Order,
}

// What comes back of a command: the refusal's number or 0, the status, and the order, zero where none was taken.
#[repr(C)]
#[derive(Clone, Copy)]
pub struct Taken {
    pub number: u8,
    pub status: u8,
    pub order: Order,
}

// The record after a command, and what comes back of it.
#[derive(Clone, Copy)]
pub struct Submitted {
    pub next: Pending,
    pub taken: Taken,
}

// What comes back of a completion: beside number and status, whether an order was lost under a reset (0 or 1), and its protocol.
#[repr(C)]
#[derive(Clone, Copy)]
pub struct Ended {
    pub number: u8,
    pub status: u8,
    pub lost: u8,
    pub lost_protocol: u8,
}

// The record after a completion, and what comes back of it.
#[derive(Clone, Copy)]
pub struct Completed {
    pub next: Pending,
    pub ended: Ended,
}

// What comes back of a command that makes no order.
pub fn none_taken(number: u8, status: u8) -> Taken
    ensures { result ≡ none_taken number status }
{
    Taken {
        number,
        status,
        order: passthrough_order::no_order(),
    }
}

// The answer to a command.
fn answer(next: Pending, number: u8, status: u8, order: Order) -> Submitted
    ensures { result ≡ Submit·answer next number status order }
{
    Submitted {
        next,
        taken: Taken {
            number,
            status,
            order,
        },
    }
}

// The answer to a command that makes no order.
fn without_order(next: Pending, number: u8, status: u8) -> Submitted
    ensures { result ≡ Submit·answer next number status no_order }
{
    Submitted {
        next,
        taken: none_taken(number, status),
    }
}

// The answer to a completion.
fn end(next: Pending, number: u8, status: u8, lost: u8, lost_protocol: u8) -> Completed
    ensures { result ≡ Complete·answer next number status lost lost_protocol }
{
    Completed {
        next,
        ended: Ended {
            number,
            status,
            lost,
            lost_protocol,
        },
    }
}

impl Pending {
    // A record that holds nothing.
    pub fn empty() -> Pending
        ensures { result ≡ Record·empty }
    {
        Pending {
            state: 0,
            order: passthrough_order::no_order(),
            older: passthrough_order::no_order(),
        }
    }

    // A pass-through command: refused, answered (protocol 15), or taken into the record.
    pub fn submit(
        self,
        command: &[u8],
        registers: &[u8],
        block: &[u8],
        declared: u32,
        edition: u8,
        form: u8,
        sense: &mut [u8],
    ) -> Submitted
        ensures { Submit·outcome result sense.new ≡ Submit·submit self command.now registers.now block.now declared edition form sense.old }
    {
        let later = edition == LATER;
        let number = passthrough_checks::fault(
            self.state != 0,
            held::reset_pending(self),
            later,
            command,
            registers.len(),
            block,
            sense.len(),
        );
        if number != 0 {
            return without_order(self, number, refusals::refuse(sense, form, number));
        }
        let protocol = passthrough_fields::protocol(command);
        if protocol == 15 {
            sense::report(sense, form, 0x01, 0x00, 0x1D, false, registers);
            return without_order(self, 0, refusals::CHECK_CONDITION);
        }
        // Of a reset no other field is read.
        if read::reset(protocol) {
            let order = read::reset_order(command);
            return answer(held::taking(self, order), 0, refusals::NONE, order);
        }
        let lacking = passthrough_length::lacking(later, block, command);
        let sent = sent::read(command);
        let size = passthrough_length::block_size(later, block, command);
        let bytes = passthrough_length::in_bytes(size, command, sent, declared);
        // With the checks above, T_LENGTH says by itself whether there are data.
        let has_data = passthrough_fields::t_length(command) != 0;
        let late = passthrough_checks::length_fault(has_data, lacking, bytes.0, declared);
        if late != 0 {
            return without_order(self, late, refusals::refuse(sense, form, late));
        }
        let order = read::command_order(command, sent, bytes.0);
        // It waits for whatever is pending, so that nothing is.
        answer(held::holding(order), 0, refusals::NONE, order)
    }

    // The end of the order that is pending, or of the reset over it, with the registers that the drive left; an order under a reset is lost.
    pub fn complete(self, registers: &[u8], form: u8, sense: &mut [u8]) -> Completed
        ensures { Complete·outcome result sense.new ≡ Complete·complete self registers.now form sense.old }
    {
        let empty = Pending::empty();
        if passthrough_checks::wrong_size(registers.len(), sense.len()) {
            return end(self, 1, refusals::refuse(sense, form, 1), 0, 0);
        }
        if self.state == 0 {
            return end(self, 15, refusals::refuse(sense, form, 15), 0, 0);
        }
        let lost = held::lost(self);
        let lost_protocol = held::lost_protocol(self);
        let status = passthrough_end::tell(self.order, registers, form, sense);
        end(empty, 0, status, lost, lost_protocol)
    }
}
