// Inquiry: the entry that answers INQUIRY, and the part that an answer shows. The rule stands in specs/Inquiry.
#![tactic(auto)]

ghost use Rattle.std.specs.Prelude.{◌≡◌, List, length};
ghost use Rattle.refusals.specs.Refusal.{row_of, refused_sense};
ghost use Rattle.refusals.specs.Helpers.{Roomy};
ghost use Rattle.inquiry_asked.specs.Request.{request};
ghost use Rattle.inquiry.specs.Inquiry.{outcome, inquiry as Inquiry·inquiry, part as Inquiry·part};

use inquiry_pages::Answer;
use port::Ports;

// A refusal: an empty part of the room, and the sense bytes of its row.
fn refuse(sense: &mut [u8], form: u8, number: u8) -> Answer
    requires { Roomy number (length sense.old) }
    ensures answer { result ≡ record { number = number; status = (row_of number).status; shown = 1; count = 0 } }
    ensures sense { sense.new ≡ refused_sense form number sense.old }
{
    let status = refusals::refuse(sense, form, number);
    Answer {
        number,
        status,
        shown: 1,
        count: 0,
    }
}

// Answers an INQUIRY command.
pub fn inquiry(
    command: &[u8],
    block: &[u8],
    signature: &[u8],
    texts: &[u8],
    reply: &[u8],
    ports: Ports,
    address: &[u8],
    form: u8,
    room: &mut [u8],
    sense: &mut [u8],
) -> Answer
    ensures { outcome result room.new sense.new ≡ Inquiry·inquiry (request command.now block.now signature.now texts.now reply.now ports address.now) form room.old sense.old }
{
    let number = inquiry_checks::fault(
        command,
        block,
        signature,
        texts,
        reply,
        ports,
        address,
        sense.len(),
    );
    if number != 0 {
        return refuse(sense, form, number);
    }
    let packet = packet::packet_drive(signature);
    let allocation = inquiry_fields::allocation(command);
    if inquiry_asked::passes_through(packet, command) {
        return Answer {
            number: 0,
            status: refusals::GOOD,
            shown: 0,
            count: rules::lesser(reply.len(), allocation),
        };
    }
    inquiry_pages::serve_page(
        room, command, block, signature, texts, reply, ports, address, allocation,
    )
}

// The part that an answer shows, of the drive's reply or of the room: which one is the number decided before.
pub fn served<'a>(reply: &'a [u8], room: &'a [u8], shown: u8, count: usize) -> &'a [u8]
    ensures { result.now ≡ Inquiry·part reply.now room.now shown count }
{
    if shown == 0 {
        return rules::part(reply, 0, count);
    }
    rules::part(room, 0, count)
}
