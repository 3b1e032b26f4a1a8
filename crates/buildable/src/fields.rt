// Fields of a command, from what they say in an order.
ghost use Rattle.std.specs.Prelude.{◌≡◌};
ghost use Rattle.buildable.specs.Fields.{off_line_for, multiple_count_for, t_dir_for, length_bits};

// OFF_LINE for quiet seconds; 4 where none gives them.
pub fn off_line(quiet_seconds: u16) -> u8
    ensures { result ≡ off_line_for quiet_seconds }
{
    match quiet_seconds {
        0 => 0,
        2 => 1,
        6 => 2,
        14 => 3,
        _ => 4,
    }
}

// MULTIPLE_COUNT for the sectors of a block; 8 where none gives them.
pub fn multiple_count(sectors: u16) -> u8
    ensures { result ≡ multiple_count_for sectors }
{
    match sectors {
        1 => 0,
        2 => 1,
        4 => 2,
        8 => 3,
        16 => 4,
        32 => 5,
        64 => 6,
        128 => 7,
        _ => 8,
    }
}

// T_DIR for a direction.
pub fn t_dir(direction: u8) -> u8
    ensures { result ≡ t_dir_for direction }
{
    rules::flag(direction == 1)
}

fn wide(number: u16) -> u32
    ensures { result ≡ number }
{
    number as u32
}

// BYTE_BLOCK and T_LENGTH: the first that has the length.
pub fn length_bits(length: u32, count: u16, features: u16) -> u8
    ensures { result ≡ length_bits length count features }
{
    let counted = wide(count);
    let counted_blocks = 512 * counted;
    let featured = wide(features);
    let featured_blocks = 512 * featured;
    if length == 0 {
        return 0;
    }
    if length == counted_blocks {
        return 6;
    }
    if length == counted {
        return 2;
    }
    if length == featured_blocks {
        return 5;
    }
    if length == featured {
        return 1;
    }
    3
}
