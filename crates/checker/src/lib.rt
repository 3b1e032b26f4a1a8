// Checker: another maker's bridge, by a capture of what it answers: each field beside what our writers give for the block, texts and
// signature that its own page 89h tells. Nothing is written to be compared. The rules stand in specs/Check, and for page 83h in
// checker_drive/specs/Ports.
#![tactic(auto)]

mod plain;

ghost use Rattle.std.specs.Prelude.{◌≡◌, Bool, true, List, [], ◌∷◌, length};
ghost use Rattle.capture.specs.Capture.{field, fields, others};
ghost use Rattle.checker.specs.Check.{accepted as Check·accepted, differs as Check·differs, refused as Check·refused, judged, signature_of, block_of, check as Check·check};
ghost use Rattle.checker.specs.Helpers.{front_beside};

use agreement::Held;

// What comes back: the refusal's number or 0; 1 where the capture is accepted; the tag of the first field at fault; and the place: of
// its first differing byte, or that at which the layout is broken.
#[repr(C)]
#[derive(Clone, Copy)]
pub struct Checked {
    pub number: u8,
    pub accepted: u8,
    pub tag: u8,
    pub place: usize,
}

fn accepted() -> Checked
    ensures { result ≡ Check·accepted }
{
    Checked {
        number: 0,
        accepted: 1,
        tag: 0,
        place: 0,
    }
}

fn differs(tag: u8, place: usize) -> Checked
    ensures { result ≡ Check·differs tag place }
{
    Checked {
        number: 0,
        accepted: 0,
        tag,
        place,
    }
}

fn refused(number: u8, place: usize) -> Checked
    ensures { result ≡ Check·refused number place }
{
    Checked {
        number,
        accepted: 0,
        tag: 0,
        place,
    }
}

// The signature that page 89h tells.
fn signature(page: &[u8]) -> &[u8]
    requires { length page.now ≡ 572 }
    ensures { result.now ≡ signature_of page.now }
{
    &page[36..56]
}

// The block that it tells.
fn block(page: &[u8]) -> &[u8]
    requires { length page.now ≡ 572 }
    ensures bytes { result.now ≡ block_of page.now }
    ensures size { length result.now ≡ 512 }
{
    &page[60..572]
}

// A field that is not there is no other than it is to be.
fn absent() -> Held
    ensures { result ≡ record { same = true; place = 0 } }
{
    Held {
        same: true,
        place: 0,
    }
}

// Page 00h, where it stands at the front of what is left.
fn front_00(rest: &[u8], information: &[u8]) -> Held
    ensures { result ≡ front_beside information.now 0x00 rest.now }
{
    if capture::stands(rest, 0x00) {
        return plain::supported(capture::content(rest));
    }
    absent()
}

// Standard data.
fn front_01(rest: &[u8], information: &[u8]) -> Held
    requires { length information.now ≡ 572 }
    ensures { result ≡ front_beside information.now 0x01 rest.now }
{
    if capture::stands(rest, 0x01) {
        return plain::standard(capture::content(rest), block(information));
    }
    absent()
}

// Page 80h.
fn front_80(rest: &[u8], information: &[u8]) -> Held
    requires { length information.now ≡ 572 }
    ensures { result ≡ front_beside information.now 0x80 rest.now }
{
    if capture::stands(rest, 0x80) {
        return plain::serial(capture::content(rest), block(information));
    }
    absent()
}

// Page 83h.
fn front_83(rest: &[u8], information: &[u8]) -> Held
    requires { length information.now ≡ 572 }
    ensures { result ≡ front_beside information.now 0x83 rest.now }
{
    if capture::stands(rest, 0x83) {
        return checker_drive::names(capture::content(rest), block(information));
    }
    absent()
}

// The fields before 89h, up to the first at fault.
fn others_checked(capture: &[u8], information: &[u8]) -> Checked
    requires { length information.now ≡ 572 }
    ensures { result ≡ judged information.now (fields others capture.now) }
{
    let held = front_00(capture, information);
    if !held.same {
        return differs(0x00, held.place);
    }
    let at = capture::taken(capture, 0x00);
    let rest = &capture[at..];
    let held = front_01(rest, information);
    if !held.same {
        return differs(0x01, held.place);
    }
    let at = at + capture::taken(rest, 0x01);
    let rest = &capture[at..];
    let held = front_80(rest, information);
    if !held.same {
        return differs(0x80, held.place);
    }
    let at = at + capture::taken(rest, 0x80);
    let rest = &capture[at..];
    let held = front_83(rest, information);
    if !held.same {
        return differs(0x83, held.place);
    }
    accepted()
}

// 89h itself.
fn information_checked(information: &[u8]) -> Checked
    requires { length information.now ≡ 572 }
    ensures { result ≡ judged information.now (field 0x89 information.now ∷ []) }
{
    let held = plain::information(information);
    if held.same {
        return accepted();
    }
    differs(0x89, held.place)
}

// The check of a capture.
pub fn check(capture: &[u8]) -> Checked
    ensures { result ≡ Check·check capture.now }
{
    let laid = capture::layout(capture);
    if !laid.holds {
        return refused(21, laid.place);
    }
    let information = capture::information(capture);
    if packet::packet_drive(signature(information)) {
        return refused(22, 0);
    }
    if checksum::damaged(block(information)) {
        return refused(18, 0);
    }
    let others = others_checked(capture, information);
    if others.accepted == 0 {
        return others;
    }
    information_checked(information)
}
