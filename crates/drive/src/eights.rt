// Eights: bytes compared eight at a time, as one number. Names and serial numbers of two drives nearly always differ, so that one to
// three such comparisons tell most blocks apart.
ghost use Rattle.std.specs.Prelude.{◌≡◌, List, ◌≤◌, length};
ghost use Rattle.texts.specs.Text.{spaced};
ghost use Rattle.identify.specs.Bytes.{Bytes, equal};
ghost use Rattle.drive.specs.Helpers.{number as Helpers·number};

// A space in each of eight bytes.
const SPACES: u64 = 0x2020202020202020;

// The seven low bits of each.
const LOW: u64 = 0x7F7F7F7F7F7F7F7F;

// The top bit of each.
const TOP: u64 = 0x8080808080808080;

// Eight bytes as one number, the first of them lowest. Compiled, it is one load.
pub fn number(bytes: &[u8]) -> u64
    requires { length bytes.now ≡ 8 }
    ensures value { result ≡ Helpers·number bytes.now }
    ensures each { Bytes bytes.now }
{
    let low = (rules::pair(bytes[1], bytes[0]) as u64)
        + 65536 * (rules::pair(bytes[3], bytes[2]) as u64);
    let high = (rules::pair(bytes[5], bytes[4]) as u64)
        + 65536 * (rules::pair(bytes[7], bytes[6]) as u64);
    low + 4294967296 * high
}

// The same with zero bytes as spaces, all at once. A byte that is not zero has its top bit, or gets it where 7Fh is added to the other
// seven; each that lacks it is given 80h / 4, a space.
fn spaced_number(bytes: &[u8]) -> u64
    requires { length bytes.now ≡ 8 }
    ensures { result ≡ Helpers·number (spaced bytes.now) }
{
    let x = number(bytes);
    let some = (((x & LOW) + LOW) | x) & TOP;
    x | (TOP - some) / 4
}

// Whether eight bytes are the same with zero bytes as spaces. Most that are not still differ with the bit of a space set in each.
fn same_eight(a: &[u8], b: &[u8]) -> bool
    requires { (length a.now ≡ 8) × (length b.now ≡ 8) }
    ensures { result ≡ equal (spaced a.now) (spaced b.now) }
{
    let x = number(a);
    let y = number(b);
    if x == y {
        return true;
    }
    if x | SPACES != y | SPACES {
        return false;
    }
    spaced_number(a) == spaced_number(b)
}

// Whether two texts are the same with zero bytes as spaces. The last eight bytes may overlap those before them.
pub fn same_text(a: &[u8], b: &[u8]) -> bool
    requires { (8 ≤ length a.now) × (length b.now ≡ length a.now) }
    ensures { result ≡ equal (spaced a.now) (spaced b.now) }
{
    let mut i = 0;
    while i < a.len() {
        let at = rules::lesser(i, a.len() - 8);
        if !same_eight(&a[at..at + 8], &b[at..at + 8]) {
            return false;
        }
        i += 8;
    }
    true
}
