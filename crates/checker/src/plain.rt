// The fields that our writers give in one way: standard data and pages 00h, 80h and 89h, piece by piece.
ghost use Rattle.std.specs.Prelude.{◌≡◌, Bool, false, List, length};
ghost use Rattle.pages.specs.Page.{standard as Page·standard, page00, page80, page89};
ghost use Rattle.agreement.specs.Agreed.{agreed};
ghost use Rattle.agreement.specs.Helpers.{beside};
ghost use Rattle.checker.specs.Check.{texts_of, signature_of, block_of};

use agreement::{Held, beside};

// 00h.
pub fn supported(bytes: &[u8]) -> Held
    ensures { result ≡ beside bytes.now page00 }
{
    beside::held(
        bytes.len(),
        agreement::bytes(bytes, 0, &pages::SUPPORTED),
        8,
    )
}

// Up to where standard data agree: the head, the product text, the revision.
fn standard_place(bytes: &[u8], block: &[u8]) -> usize
    requires { length block.now ≡ 512 }
    ensures { result ≡ agreed bytes.now (Page·standard block.now) }
{
    let head = pages::standard_head(block);
    let at = agreement::bytes(bytes, 0, &head);
    if at < 16 {
        return at;
    }
    let at = agreement::text(bytes, 16, pages::product(block), false);
    if at < 32 {
        return at;
    }
    agreement::text(
        bytes,
        32,
        texts::revision_part(identify::firmware(block)),
        false,
    )
}

// 01h.
pub fn standard(bytes: &[u8], block: &[u8]) -> Held
    requires { length block.now ≡ 512 }
    ensures { result ≡ beside bytes.now (Page·standard block.now) }
{
    beside::held(
        bytes.len(),
        standard_place(bytes, block),
        pages::STANDARD_SIZE,
    )
}

// Up to where page 80h agrees: the head, the serial number.
fn serial_place(bytes: &[u8], block: &[u8]) -> usize
    requires { length block.now ≡ 512 }
    ensures { result ≡ agreed bytes.now (page80 block.now) }
{
    let at = agreement::bytes(bytes, 0, &pages::SERIAL_HEAD);
    if at < 4 {
        return at;
    }
    agreement::text(bytes, 4, identify::serial(block), true)
}

// 80h.
pub fn serial(bytes: &[u8], block: &[u8]) -> Held
    requires { length block.now ≡ 512 }
    ensures { result ≡ beside bytes.now (page80 block.now) }
{
    beside::held(bytes.len(), serial_place(bytes, block), pages::SERIAL_SIZE)
}

// Up to where page 89h agrees with the one of its own texts, signature and block: only the head and the command code can differ.
fn information_place(page: &[u8]) -> usize
    requires { length page.now ≡ 572 }
    ensures { result ≡ agreed page.now (page89 false (texts_of page.now) (signature_of page.now) (block_of page.now)) }
{
    let head = pages::information_head(false, page);
    let at = agreement::bytes(page, 0, &head);
    if at < 8 {
        return at;
    }
    let code = pages::information_code(false);
    let at = agreement::bytes(page, 56, &code);
    if at < 60 {
        return at;
    }
    572
}

// 89h.
pub fn information(page: &[u8]) -> Held
    requires { length page.now ≡ 572 }
    ensures { result ≡ beside page.now (page89 false (texts_of page.now) (signature_of page.now) (block_of page.now)) }
{
    beside::held(page.len(), information_place(page), 572)
}
