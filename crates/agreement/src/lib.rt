// Agreement: how far a run of bytes, from a place on, agrees with a piece that could stand there: with bytes as they stand, or with a
// text that would be written turned. Nothing is written to be compared. A piece that stands there whole is found four bytes at a time,
// each four compared as one; any other is compared byte by byte. A run that agrees with a page to the end of both is that page. The rule
// stands in specs/Agreed.
#![tactic(auto)]

pub mod beside;

ghost use Rattle.std.specs.Prelude.{◌≡◌, Bool, List, map, ◌+◌, ◌%◌, ◌≤◌, length, drop};
ghost use Rattle.texts.specs.Text.{turned};
ghost use Rattle.texts.specs.Helpers.{shown};
ghost use Rattle.agreement.specs.Agreed.{agreed};
ghost use Rattle.agreement.specs.Helpers.{whole, four as Helpers·four};

// A run beside a page: whether they are the same, and the place up to which they agree.
#[derive(Clone, Copy)]
pub struct Held {
    pub same: bool,
    pub place: usize,
}

// Whether these four bytes stand at a place. All are looked at, and so they are compared as one number.
fn four(run: &[u8], at: usize, a: u8, b: u8, c: u8, d: u8) -> bool
    requires { at + 4 ≤ length run.now }
    ensures { result ≡ Helpers·four run.now at a b c d }
{
    (run[at] == a) & (run[at + 1] == b) & (run[at + 2] == c) & (run[at + 3] == d)
}

// Whether a piece of whole fours stands at a place whole.
fn whole_bytes(run: &[u8], at: usize, piece: &[u8]) -> bool
    requires { (at ≤ length run.now) × (length piece.now % 4 ≡ 0) }
    ensures { result ≡ whole run.now at piece.now }
{
    if run.len() - at < piece.len() {
        return false;
    }
    let mut i = 0;
    while i < piece.len() {
        if !four(
            run,
            at + i,
            piece[i],
            piece[i + 1],
            piece[i + 2],
            piece[i + 3],
        ) {
            return false;
        }
        i += 4;
    }
    true
}

// The place up to which the run agrees with bytes from a place on, byte by byte.
fn each_byte(run: &[u8], at: usize, piece: &[u8]) -> usize
    requires { at ≤ length run.now }
    ensures { result ≡ at + agreed (drop at run.now) piece.now }
{
    let n = rules::lesser(run.len() - at, piece.len());
    let mut i = 0;
    while i < n {
        if run[at + i] != piece[i] {
            return at + i;
        }
        i += 1;
    }
    at + i
}

// The place up to which the run agrees with bytes from a place on.
pub fn bytes(run: &[u8], at: usize, piece: &[u8]) -> usize
    requires { at ≤ length run.now }
    ensures { result ≡ at + agreed (drop at run.now) piece.now }
{
    if piece.len() % 4 == 0 {
        if whole_bytes(run, at, piece) {
            return at + piece.len();
        }
    }
    each_byte(run, at, piece)
}

// Whether a text of whole pairs of words, turned, stands at a place whole, its zero bytes as spaces or as they stand.
fn whole_text(run: &[u8], at: usize, text: &[u8], spaced: bool) -> bool
    requires { (at ≤ length run.now) × (length text.now % 4 ≡ 0) }
    ensures { result ≡ whole run.now at (map (shown spaced) (turned text.now)) }
{
    if run.len() - at < text.len() {
        return false;
    }
    let mut i = 0;
    while i < text.len() {
        let a = texts::shown(spaced, text[i + 1]);
        let b = texts::shown(spaced, text[i]);
        let c = texts::shown(spaced, text[i + 3]);
        let d = texts::shown(spaced, text[i + 2]);
        if !four(run, at + i, a, b, c, d) {
            return false;
        }
        i += 4;
    }
    true
}

// The place up to which it agrees with a text that is turned, byte by byte.
fn each_turned(run: &[u8], at: usize, text: &[u8], spaced: bool) -> usize
    requires { at ≤ length run.now }
    ensures { result ≡ at + agreed (drop at run.now) (map (shown spaced) (turned text.now)) }
{
    let n = rules::lesser(run.len() - at, text.len());
    let mut i = 0;
    while i < n {
        if run[at + i] != texts::turned_at(text, i, spaced) {
            return at + i;
        }
        i += 1;
    }
    at + i
}

// The place up to which it agrees with a text that is turned, its zero bytes as spaces or as they stand.
pub fn text(run: &[u8], at: usize, text: &[u8], spaced: bool) -> usize
    requires { at ≤ length run.now }
    ensures { result ≡ at + agreed (drop at run.now) (map (shown spaced) (turned text.now)) }
{
    if text.len() % 4 == 0 {
        if whole_text(run, at, text, spaced) {
            return at + text.len();
        }
    }
    each_turned(run, at, text, spaced)
}
