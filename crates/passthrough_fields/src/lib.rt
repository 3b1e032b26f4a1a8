// Pass-through fields: ATA PASS-THROUGH (12), (16) and (32), field by field. The rules stand in specs/Fields.
#![tactic(auto)]

pub mod sent;

ghost use Rattle.std.specs.Prelude.{◌≡◌, ◌<◌, ◌≤◌, length};
ghost use Rattle.passthrough_fields.specs.Fields.{long as Fields·long, longest as Fields·longest, service_action, first_flags, second_flags, protocol as Fields·protocol, multiple_count, off_line, t_length, extend as Fields·extend, ck_cond, t_type, t_dir, byte_block};
ghost use Rattle.rules.specs.Bits.{bit};
ghost use Rattle.passthrough_fields.specs.Helpers.{Whole};

// Whether the command is the 16-byte form.
pub fn long(command: &[u8]) -> bool
    requires { 0 < length command.now }
    ensures { result ≡ Fields·long command.now }
{
    command[0] == 0x85
}

// Whether the command is the 32-byte form.
pub fn longest(command: &[u8]) -> bool
    requires { 0 < length command.now }
    ensures { result ≡ Fields·longest command.now }
{
    command[0] == 0x7F
}

// Whether bytes 7 to 9 are those of the 32-byte form.
pub fn service_action(command: &[u8]) -> bool
    requires { 32 ≤ length command.now }
    ensures { result ≡ service_action command.now }
{
    (command[7] == 0x18) & (command[8] == 0x1F) & (command[9] == 0xF0)
}

// The two bytes of flags.
fn first_flags(command: &[u8]) -> u8
    requires { Whole command.now }
    ensures { result ≡ first_flags command.now }
{
    if longest(command) {
        return command[10];
    }
    command[1]
}

fn second_flags(command: &[u8]) -> u8
    requires { Whole command.now }
    ensures { result ≡ second_flags command.now }
{
    if longest(command) {
        return command[11];
    }
    command[2]
}

// Whether bit k of the second one is one.
fn flag(command: &[u8], k: u8) -> bool
    requires { Whole command.now × (k < 8) }
    ensures { result ≡ bit k (second_flags command.now) }
{
    rules::bit(second_flags(command), k)
}

pub fn protocol(command: &[u8]) -> u8
    requires { Whole command.now }
    ensures { result ≡ Fields·protocol command.now }
{
    first_flags(command) / 2 % 16
}

pub fn multiple_count(command: &[u8]) -> u8
    requires { Whole command.now }
    ensures { result ≡ multiple_count command.now }
{
    first_flags(command) / 32 % 8
}

pub fn off_line(command: &[u8]) -> u8
    requires { Whole command.now }
    ensures { result ≡ off_line command.now }
{
    second_flags(command) / 64 % 4
}

pub fn t_length(command: &[u8]) -> u8
    requires { Whole command.now }
    ensures { result ≡ t_length command.now }
{
    second_flags(command) % 4
}

// EXTEND, which the 12-byte form does not have.
pub fn extend(command: &[u8]) -> bool
    requires { Whole command.now }
    ensures { result ≡ Fields·extend command.now }
{
    (longest(command) | long(command)) & rules::bit(first_flags(command), 0)
}

pub fn ck_cond(command: &[u8]) -> bool
    requires { Whole command.now }
    ensures { result ≡ ck_cond command.now }
{
    flag(command, 5)
}

pub fn t_type(command: &[u8]) -> bool
    requires { Whole command.now }
    ensures { result ≡ t_type command.now }
{
    flag(command, 4)
}

pub fn t_dir(command: &[u8]) -> bool
    requires { Whole command.now }
    ensures { result ≡ t_dir command.now }
{
    flag(command, 3)
}

pub fn byte_block(command: &[u8]) -> bool
    requires { Whole command.now }
    ensures { result ≡ byte_block command.now }
{
    flag(command, 2)
}
