// Inquiries: what the board answers to INQUIRY, a line for each answer. For each IDENTIFY block of 512 bytes of the input the
// board is asked for standard data, for pages 00h, 80h, 83h and 89h, and for page 83h again with allocation length 5; at the
// end for page 00h and standard data of one packet drive, whose own replies stand below. A line has the place, the page, the
// refusal number, the status, the count, and the served bytes in hexadecimal: a damaged block has number 18 in each of its lines, and
// no bytes. The stored output was checked with sg_inq and
// sg_vpd of sg3-utils 1.46: the names, texts and words that they decode from it are those of the blocks.
#![tactic(auto)]

use input::{Failure, Program, Run, Stream, System, Unwritten};
use std::io::Write;

// What each disk is asked: every page, with an allocation length of 572 that cuts none, and last page 83h cut to five bytes.
const COMMANDS: [[u8; 6]; 6] = [
    [0x12, 0x00, 0x00, 0x02, 0x3C, 0x00],
    [0x12, 0x01, 0x00, 0x02, 0x3C, 0x00],
    [0x12, 0x01, 0x80, 0x02, 0x3C, 0x00],
    [0x12, 0x01, 0x83, 0x02, 0x3C, 0x00],
    [0x12, 0x01, 0x89, 0x02, 0x3C, 0x00],
    [0x12, 0x01, 0x83, 0x00, 0x05, 0x00],
];

struct Inquiries;

impl Program for Inquiries {
    const NAME: &'static str = "inquiries";

    const HELP: &'static str = "\
        Prints what the board answers to INQUIRY, for each block and for one packet drive: its place from 0, the page, the\n\
        refusal number, the status, the count, and the served bytes in hexadecimal. A damaged block has number 18.\n\
        Input: up to 64 IDENTIFY blocks of 512 bytes each.";

    const EXAMPLE: &'static str = "data/identify/*.bin";

    type Wrong = &'static str;

    // The buffer has one byte more than 64 blocks, so that more are complained of and not cut.
    fn print<S: System, W: Write>(
        &self,
        input: &mut Stream<'_, S>,
        out: &mut W,
    ) -> Result<(), Failure<&'static str>> {
        let mut buffer = [0u8; 64 * 512 + 1];
        let blocks = input.pieces(
            &mut buffer,
            "more than 64 blocks",
            "the input is no whole number of blocks of 512 bytes",
        )?;
        print_disks(blocks, out)?;
        Ok(print_packet_drive(out)?)
    }
}

// The signature of a SATA drive, as it comes in the first frame after a reset: frame type 34h, status 50h, error 01h, LBA
// low 01h, then LBA mid and high, and count 01h. A disk has 00h and 00h for mid and high, a packet drive 14h and EBh.
fn signature(mid: u8, high: u8) -> [u8; 20] {
    let mut frame = [0u8; 20];
    frame[0] = 0x34;
    frame[2] = 0x50;
    frame[3] = 0x01;
    frame[4] = 0x01;
    frame[5] = mid;
    frame[6] = high;
    frame[12] = 0x01;
    frame
}

// Bytes, each in two hexadecimal digits.
fn print_bytes(bytes: &[u8], out: &mut impl Write) -> Result<(), Unwritten> {
    for byte in bytes {
        out.write_all(&output::digits(*byte))?;
    }
    Ok(())
}

// What a command asks for: standard data, or the page of its byte 2.
fn print_page(command: &[u8; 6], out: &mut impl Write) -> Result<(), Unwritten> {
    if !rules::bit(command[1], 0) {
        return Ok(write!(out, " standard")?);
    }
    write!(out, " ")?;
    print_bytes(&command[2..3], out)?;
    Ok(write!(out, "h")?)
}

// Asks the board, and prints the line from the page's name on.
fn ask(
    command: &[u8; 6],
    block: &[u8],
    signature: &[u8],
    reply: &[u8],
    out: &mut impl Write,
) -> Result<(), Unwritten> {
    let mut room = [0u8; 572];
    let mut sense = [0u8; 22];
    let answer = inquiry::inquiry(
        command,
        block,
        signature,
        b"PIONG   SAT BRIDGE      4   ",
        reply,
        port::no_ports(),
        b"",
        sense::UNSTATED,
        &mut room,
        &mut sense,
    );
    print_page(command, out)?;
    write!(out, " {} ", answer.number)?;
    print_bytes(&[answer.status], out)?;
    write!(out, " {} ", answer.count)?;
    print_bytes(
        inquiry::served(reply, &room, answer.shown, answer.count),
        out,
    )?;
    Ok(writeln!(out)?)
}

fn print_disks(blocks: &[[u8; 512]], out: &mut impl Write) -> Result<(), Unwritten> {
    let signature = signature(0x00, 0x00);
    for (i, block) in blocks.iter().enumerate() {
        for command in &COMMANDS {
            write!(out, "{i}")?;
            ask(command, block, &signature, b"", out)?;
        }
    }
    Ok(())
}

// Asks for two pages of a packet drive that gave no block. The board adds 89h to its own page 00h, and shows its standard data as they
// are.
fn print_packet_drive(out: &mut impl Write) -> Result<(), Unwritten> {
    let signature = signature(0x14, 0xEB);
    let supported = [0x05, 0x00, 0x00, 0x03, 0x00, 0x80, 0x83];
    let standard = b"\x05\x80\x05\x02\x1F\x00\x00\x00PIONG   PACKET DRIVE    1.0 ";
    write!(out, "packet")?;
    ask(
        &[0x12, 0x01, 0x00, 0x02, 0x3C, 0x00],
        b"",
        &signature,
        &supported,
        out,
    )?;
    write!(out, "packet")?;
    ask(
        &[0x12, 0x00, 0x00, 0x02, 0x3C, 0x00],
        b"",
        &signature,
        standard,
        out,
    )
}

fn main(rt: HostRuntime) {
    Inquiries.run(&rt);
}
