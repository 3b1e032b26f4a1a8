// Pass-through order: the order for the drive that a pass-through command makes. The rules stand in specs/Order; the crate
// `passthrough_checks` refuses commands.
#![tactic(auto)]

pub mod read;

ghost use Rattle.std.specs.Prelude.{◌≡◌};
ghost use Rattle.passthrough_order.specs.Order.{no_order};

// An order for the drive. Numbers only, and no gaps between them, so that C code can hold it as it is.
#[repr(C)]
#[derive(Clone, Copy)]
pub struct Order {
    pub length: u32,
    pub auxiliary: u32,
    pub features: u16,
    pub count: u16,
    pub lba_low: u16,
    pub lba_mid: u16,
    pub lba_high: u16,
    pub quiet_seconds: u16,
    pub sectors_per_block: u16,
    pub device: u8,
    pub command: u8,
    pub protocol: u8,
    pub ck_cond: u8,
    pub extend: u8,
    // 0 none, 1 from the drive, 2 to the drive
    pub direction: u8,
}

// An order with every field zero.
pub fn no_order() -> Order
    ensures { result ≡ no_order }
{
    Order {
        length: 0,
        auxiliary: 0,
        features: 0,
        count: 0,
        lba_low: 0,
        lba_mid: 0,
        lba_high: 0,
        quiet_seconds: 0,
        sectors_per_block: 0,
        device: 0,
        command: 0,
        protocol: 0,
        ck_cond: 0,
        extend: 0,
        direction: 0,
    }
}
