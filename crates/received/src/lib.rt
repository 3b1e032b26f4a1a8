// Received: what is done with intakes: INQUIRY from the block of one, and the roll of a run of them. The rules stand in
// specs/Received; each is the one that exists, over the intake's block. specs/Stream and proofs/Stream have what they say of streams.
#![tactic(auto)]

ghost use Rattle.std.specs.Prelude.{◌≡◌, List};
ghost use Rattle.inquiry.specs.Inquiry.{outcome as inquiry_outcome};
ghost use Rattle.received.specs.Received.{inquiry_of, outcome, roll_of};

use inquiry_pages::Answer;
use intake::Intake;
use port::Ports;
use roll::Counted;

// Answers an INQUIRY command from an intake's block.
pub fn inquiry(
    intake: Intake,
    store: &[u8],
    command: &[u8],
    signature: &[u8],
    texts: &[u8],
    reply: &[u8],
    ports: Ports,
    address: &[u8],
    form: u8,
    room: &mut [u8],
    sense: &mut [u8],
) -> Answer
    ensures { inquiry_outcome result room.new sense.new ≡ inquiry_of intake.have store.now command.now signature.now texts.now reply.now ports address.now form room.old sense.old }
{
    if intake::wrong(intake, store.len()) {
        return Answer {
            number: 1,
            status: refusals::NONE,
            shown: 1,
            count: 0,
        };
    }
    inquiry::inquiry(
        command,
        intake::block(intake.have, store),
        signature,
        texts,
        reply,
        ports,
        address,
        form,
        room,
        sense,
    )
}

fn refused(number: u8) -> Counted
    ensures { result ≡ record { number = number; blocks = 0; drives = 0 } }
{
    Counted {
        number,
        blocks: 0,
        drives: 0,
    }
}

// The roll of a run of intakes.
pub fn roll(haves: &[u16], stores: &[u8], room: &mut [u8], rows: &mut [u16]) -> Counted
    ensures { outcome result room.new rows.new ≡ roll_of haves.now stores.now room.old rows.old }
{
    if gathering::wrong_run(haves, stores.len()) {
        return refused(1);
    }
    let count = gathering::count_complete(haves);
    if 64 < count {
        return refused(1);
    }
    if rows.len() < count {
        return refused(1);
    }
    if gathering::any_damaged(haves, stores) {
        return refused(18);
    }
    let bytes = 512 * count;
    if room.len() < bytes {
        return refused(8);
    }
    gathering::put_blocks(haves, stores, room);
    roll::roll(&room[..bytes], rows)
}
