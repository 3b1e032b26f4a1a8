// Piongseut: the board as a C library. Every entry is a thin function over the one that is proved below it, and promises the same
// in the same words; include/piongseut.h says it to C. Only what stands here is visible in the archive.
#![tactic(auto)]

ghost use Rattle.std.specs.Prelude.{◌≡◌, List};
ghost use Rattle.inquiry_asked.specs.Request.{request};
ghost use Rattle.inquiry.specs.Inquiry.{outcome as inquiry_outcome, inquiry as inquiry_rule};
ghost use Rattle.passthrough.specs.Record.{empty};
ghost use Rattle.passthrough.specs.Submit.{outcome as submit_outcome, submit as submit_rule};
ghost use Rattle.passthrough.specs.Complete.{outcome as complete_outcome, complete as complete_rule};
ghost use Rattle.builder.specs.Builder.{build as build_rule};
ghost use Rattle.page83.specs.Page83.{outcome as written_outcome, write as write_rule};
ghost use Rattle.page83_reader.specs.Reader.{read as read_rule};
ghost use Rattle.checker.specs.Check.{check as check_rule};
ghost use Rattle.roll.specs.Roll.{outcome as roll_outcome, roll as roll_rule};
ghost use Rattle.intake.specs.Intake.{empty as empty_intake, outcome as taken_outcome, taken as taken_rule, offered};
ghost use Rattle.gathering.specs.Gathering.{gather_outcome, gather_of};
ghost use Rattle.tally.specs.Census.{empty as empty_census, feed as feed_rule};

use builder::Built;
use checker::Checked;
use gathering::Gathered;
use inquiry_pages::Answer;
use intake::{Intake, Offered, Took};
use page83::Written;
use page83_reader::Name;
use passthrough::{Ended, Pending, Taken};
use passthrough_order::Order;
use port::Ports;
use roll::Counted;
use tally::{Census, Fed};

// Answers an INQUIRY command.
#[unsafe(no_mangle)]
pub extern "C" fn piongseut_inquiry(
    command: &[u8],
    block: &[u8],
    signature: &[u8],
    texts: &[u8],
    reply: &[u8],
    ports: Ports,
    address: &[u8],
    form: u8,
    room: &mut [u8],
    sense: &mut [u8],
) -> Answer
    ensures { inquiry_outcome result room.new sense.new ≡ inquiry_rule (request command.now block.now signature.now texts.now reply.now ports address.now) form room.old sense.old }
{
    inquiry::inquiry(
        command, block, signature, texts, reply, ports, address, form, room, sense,
    )
}

// A record that holds nothing.
#[unsafe(no_mangle)]
pub extern "C" fn piongseut_record_empty() -> Pending
    ensures { result ≡ empty }
{
    Pending::empty()
}

// Submits a pass-through command, and updates the record that is lent. A step that leaves the record's state leaves the record, so
// that it is not written then; and since it is not, only its state has to be read. Such a step makes no order: its answer is made
// apart, so that no field of an order is looked at for it.
#[unsafe(no_mangle)]
pub extern "C" fn piongseut_submit(
    state: &mut Pending,
    command: &[u8],
    registers: &[u8],
    block: &[u8],
    declared: u32,
    edition: u8,
    form: u8,
    sense: &mut [u8],
) -> Taken
    ensures { submit_outcome (record { next = state.new; taken = result }) sense.new ≡ submit_rule state.old command.now registers.now block.now declared edition form sense.old }
{
    let p = *state;
    let submitted = p.submit(command, registers, block, declared, edition, form, sense);
    if submitted.next.state != p.state {
        *state = submitted.next;
        return submitted.taken;
    }
    passthrough::none_taken(submitted.taken.number, submitted.taken.status)
}

// Ends the order that the record holds, and updates the record that is lent, as `piongseut_submit` does.
#[unsafe(no_mangle)]
pub extern "C" fn piongseut_complete(
    state: &mut Pending,
    registers: &[u8],
    form: u8,
    sense: &mut [u8],
) -> Ended
    ensures { complete_outcome (record { next = state.new; ended = result }) sense.new ≡ complete_rule state.old registers.now form sense.old }
{
    let p = *state;
    let completed = p.complete(registers, form, sense);
    if completed.next.state != p.state {
        *state = completed.next;
    }
    completed.ended
}

// Writes the page 83h of a block, with the ports that are chosen.
#[unsafe(no_mangle)]
pub extern "C" fn piongseut_write_page83(
    block: &[u8],
    ports: Ports,
    address: &[u8],
    room: &mut [u8],
) -> Written
    ensures { written_outcome result room.new ≡ write_rule block.now ports address.now room.old }
{
    page83::write(block, ports, address, room)
}

// Reads a page 83h.
#[unsafe(no_mangle)]
pub extern "C" fn piongseut_read_page83(page: &[u8]) -> Name
    ensures { result ≡ read_rule page.now }
{
    page83_reader::read(page)
}

// Checks a capture of another maker's bridge.
#[unsafe(no_mangle)]
pub extern "C" fn piongseut_check(capture: &[u8]) -> Checked
    ensures { result ≡ check_rule capture.now }
{
    checker::check(capture)
}

// The roll of a run of blocks.
#[unsafe(no_mangle)]
pub extern "C" fn piongseut_roll(blocks: &[u8], rows: &mut [u16]) -> Counted
    ensures { roll_outcome result rows.new ≡ roll_rule blocks.now rows.old }
{
    roll::roll(blocks, rows)
}

// An intake that has nothing.
#[unsafe(no_mangle)]
pub extern "C" fn piongseut_intake_empty() -> Intake
    ensures { result ≡ empty_intake }
{
    intake::empty()
}

// Takes a run of bytes into an intake.
#[unsafe(no_mangle)]
pub extern "C" fn piongseut_intake_take(intake: Intake, store: &mut [u8], run: &[u8]) -> Took
    ensures { taken_outcome result store.new ≡ taken_rule intake store.old run.now }
{
    intake::take(intake, store, run)
}

// How many bytes of its store are an intake's block.
#[unsafe(no_mangle)]
pub extern "C" fn piongseut_intake_block(intake: Intake, store: usize) -> Offered
    ensures { result ≡ offered intake.have store }
{
    intake::block_size(intake, store)
}

// Gathers the blocks of a run of intakes.
#[unsafe(no_mangle)]
pub extern "C" fn piongseut_intake_gather(haves: &[u16], stores: &[u8], room: &mut [u8]) -> Gathered
    ensures { gather_outcome result room.new ≡ gather_of haves.now stores.now room.old }
{
    gathering::gather(haves, stores, room)
}

// A census that has counted nothing.
#[unsafe(no_mangle)]
pub extern "C" fn piongseut_census_empty() -> Census
    ensures { result ≡ empty_census }
{
    tally::empty()
}

// Feeds a block to a census.
#[unsafe(no_mangle)]
pub extern "C" fn piongseut_census_feed(census: Census, block: &[u8]) -> Fed
    ensures { result ≡ feed_rule census block.now }
{
    tally::feed(census, block)
}

// Builds the command that makes an order.
#[unsafe(no_mangle)]
pub extern "C" fn piongseut_build(order: Order) -> Built
    ensures { result ≡ build_rule order }
{
    builder::build(order)
}
