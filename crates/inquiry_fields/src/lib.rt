// Inquiry fields: an INQUIRY command field by field; the page code is a byte as it stands. The rules stand in specs/Fields.
#![tactic(auto)]

ghost use Rattle.std.specs.Prelude.{◌≡◌, ◌≤◌, length};
ghost use Rattle.inquiry_fields.specs.Fields.{evpd as Fields·evpd, cmddt as Fields·cmddt, allocation as Fields·allocation, naca as Fields·naca};

pub fn evpd(command: &[u8]) -> bool
    requires { 6 ≤ length command.now }
    ensures { result ≡ Fields·evpd command.now }
{
    rules::bit(command[1], 0)
}

pub fn cmddt(command: &[u8]) -> bool
    requires { 6 ≤ length command.now }
    ensures { result ≡ Fields·cmddt command.now }
{
    rules::bit(command[1], 1)
}

pub fn allocation(command: &[u8]) -> usize
    requires { 6 ≤ length command.now }
    ensures { result ≡ Fields·allocation command.now }
{
    rules::pair(command[3], command[4]) as usize
}

pub fn naca(command: &[u8]) -> bool
    requires { 6 ≤ length command.now }
    ensures { result ≡ Fields·naca command.now }
{
    rules::bit(command[5], 2)
}
