// Inquiry asked: what an INQUIRY asks for. Standard data, page 83h, and what a packet drive answers itself are told apart here; the rules
// stand in specs/: what is lent in Request, the page and how much of it in Asked.
#![tactic(auto)]

ghost use Rattle.std.specs.Prelude.{◌≡◌, ◌&&◌, not, ◌≤◌, length};
ghost use Rattle.inquiry_fields.specs.Fields.{evpd};
ghost use Rattle.inquiry_asked.specs.Request.{passes_through};
ghost use Rattle.inquiry_asked.specs.Helpers.{drive_asked};

// Whether a packet drive's own reply is shown.
pub fn passes_through(packet: bool, command: &[u8]) -> bool
    requires { 6 ≤ length command.now }
    ensures { result ≡ passes_through packet command.now }
{
    if !packet {
        return false;
    }
    if !inquiry_fields::evpd(command) {
        return true;
    }
    if inquiry_fields::cmddt(command) {
        return true;
    }
    if command[2] == 0x00 {
        return false;
    }
    command[2] != 0x89
}

// Whether standard data is asked for.
pub fn standard_asked(packet: bool, command: &[u8]) -> bool
    requires { 6 ≤ length command.now }
    ensures { result ≡ (not packet && not (evpd command.now)) }
{
    if packet {
        return false;
    }
    !inquiry_fields::evpd(command)
}

// Whether page 83h is asked for.
pub fn drive_asked(packet: bool, command: &[u8]) -> bool
    requires { 6 ≤ length command.now }
    ensures { result ≡ drive_asked packet command.now }
{
    if packet {
        return false;
    }
    if inquiry_fields::evpd(command) {
        return command[2] == 0x83;
    }
    false
}
