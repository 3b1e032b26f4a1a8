// Inquiry pages: a page in answer to INQUIRY, as much of it as is asked for, into the room. What is asked, and how much of it is to be
// written, stand in inquiry_asked/specs/Asked.
#![tactic(auto)]

ghost use Rattle.std.specs.Prelude.{◌≡◌, Bool, false, List, length};
ghost use Rattle.port.specs.Ports.{wrong_address};
ghost use Rattle.page83.specs.Page83.{page83};
ghost use Rattle.pages.specs.Page.{standard, page00, page80, page89};
ghost use Rattle.pages.specs.Helpers.{WholeOrNone};
ghost use Rattle.packet.specs.Packet.{unusable, page00 as packet_page00};
ghost use Rattle.inquiry_asked.specs.Request.{request};
ghost use Rattle.inquiry_asked.specs.Asked.{page as Inquiry·page};
ghost use Rattle.inquiry_asked.specs.Helpers.{Servable};
ghost use Rattle.inquiry_pages.specs.Helpers.{no_room, filled as Helpers·filled, Answered};

use port::Ports;

// What comes back: the refusal's number or 0, the status, which slice is shown (0 the drive's reply, 1 the room), and how many
// of its bytes.
#[repr(C)]
#[derive(Clone, Copy)]
pub struct Answer {
    pub number: u8,
    pub status: u8,
    pub shown: u8,
    pub count: usize,
}

// Room that does not hold what is to be written of a page: 8, which has no sense bytes.
fn no_room() -> Answer
    ensures { result ≡ no_room }
{
    Answer {
        number: 8,
        status: refusals::NONE,
        shown: 1,
        count: 0,
    }
}

// n bytes of a page, which stand in the room.
fn filled(n: usize) -> Answer
    ensures { result ≡ Helpers·filled n }
{
    Answer {
        number: 0,
        status: refusals::GOOD,
        shown: 1,
        count: n,
    }
}

// Standard data. Each page is served by a function of its own, so that its size is known where it is compared, and that the page which
// is asked for is looked for once.
fn serve_standard(room: &mut [u8], block: &[u8], allocation: usize) -> Answer
    requires { length block.now ≡ 512 }
    ensures { Answered (standard block.now) allocation room.old result room.new }
{
    let n = rules::lesser(pages::STANDARD_SIZE, allocation);
    if room.len() < n {
        return no_room();
    }
    pages::put_standard(&mut room[..n], block);
    filled(n)
}

// Page 00h.
fn serve_supported(room: &mut [u8], allocation: usize) -> Answer
    ensures { Answered page00 allocation room.old result room.new }
{
    let n = rules::lesser(pages::SUPPORTED_SIZE, allocation);
    if room.len() < n {
        return no_room();
    }
    pages::put_supported(&mut room[..n]);
    filled(n)
}

// Page 00h of a packet drive.
fn serve_listed(room: &mut [u8], reply: &[u8], allocation: usize) -> Answer
    requires { unusable reply.now ≡ false }
    ensures { Answered (packet_page00 reply.now) allocation room.old result room.new }
{
    let n = rules::lesser(packet::size(reply), allocation);
    if room.len() < n {
        return no_room();
    }
    packet::put(&mut room[..n], reply);
    filled(n)
}

// Page 80h.
fn serve_serial(room: &mut [u8], block: &[u8], allocation: usize) -> Answer
    requires { length block.now ≡ 512 }
    ensures { Answered (page80 block.now) allocation room.old result room.new }
{
    let n = rules::lesser(pages::SERIAL_SIZE, allocation);
    if room.len() < n {
        return no_room();
    }
    pages::put_serial(&mut room[..n], block);
    filled(n)
}

// Page 83h, whole where nothing cuts it.
fn serve_drive(
    room: &mut [u8],
    block: &[u8],
    ports: Ports,
    address: &[u8],
    allocation: usize,
) -> Answer
    requires { (length block.now ≡ 512) × (wrong_address ports address.now ≡ false) }
    ensures { Answered (page83 block.now ports address.now) allocation room.old result room.new }
{
    let whole = page83::put_whole(room, block, ports, address, allocation);
    if whole != 0 {
        return filled(whole);
    }
    let n = rules::lesser(page83::size(block, ports), allocation);
    if room.len() < n {
        return no_room();
    }
    page83::put(&mut room[..n], block, ports, address);
    filled(n)
}

// Page 89h.
fn serve_information(
    room: &mut [u8],
    packet: bool,
    texts: &[u8],
    signature: &[u8],
    block: &[u8],
    allocation: usize,
) -> Answer
    requires { (length texts.now ≡ 28) × ((length signature.now ≡ 20) × WholeOrNone block.now) }
    ensures { Answered (page89 packet texts.now signature.now block.now) allocation room.old result room.new }
{
    let n = rules::lesser(pages::information_size(block), allocation);
    if room.len() < n {
        return no_room();
    }
    pages::put_information(&mut room[..n], packet, texts, signature, block);
    filled(n)
}

// Serves the page that is asked for.
pub fn serve_page(
    room: &mut [u8],
    command: &[u8],
    block: &[u8],
    signature: &[u8],
    texts: &[u8],
    reply: &[u8],
    ports: Ports,
    address: &[u8],
    allocation: usize,
) -> Answer
    requires { Servable (request command.now block.now signature.now texts.now reply.now ports address.now) }
    ensures { Answered (Inquiry·page (request command.now block.now signature.now texts.now reply.now ports address.now)) allocation room.old result room.new }
{
    let packet = packet::packet_drive(signature);
    if inquiry_asked::standard_asked(packet, command) {
        return serve_standard(room, block, allocation);
    }
    if command[2] == 0x00 {
        if packet {
            return serve_listed(room, reply, allocation);
        }
        return serve_supported(room, allocation);
    }
    if command[2] == 0x80 {
        return serve_serial(room, block, allocation);
    }
    if command[2] == 0x83 {
        return serve_drive(room, block, ports, address, allocation);
    }
    serve_information(room, packet, texts, signature, block, allocation)
}
