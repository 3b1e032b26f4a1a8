// Drive: when two IDENTIFY blocks are the same drive. The rule stands in specs/Drive.
#![tactic(auto)]

mod eights;

ghost use Rattle.std.specs.Prelude.{◌≡◌, ◌&&◌, List, length};
ghost use Rattle.texts.specs.Text.{spaced};
ghost use Rattle.identify.specs.Block.{serial as Block·serial, model as Block·model, name as Block·name};
ghost use Rattle.identify.specs.Bytes.{equal};
ghost use Rattle.identify.specs.Names.{carries_name};
ghost use Rattle.drive.specs.Drive.{same_drive};

fn same_name(a: &[u8], b: &[u8]) -> bool
    requires { (length a.now ≡ 512) × (length b.now ≡ 512) }
    ensures { result ≡ equal (Block·name a.now) (Block·name b.now) }
{
    eights::number(identify::name(a)) == eights::number(identify::name(b))
}

// Serial numbers nearly always differ, models seldom.
fn same_texts(a: &[u8], b: &[u8]) -> bool
    requires { (length a.now ≡ 512) × (length b.now ≡ 512) }
    ensures { result ≡ (equal (spaced (Block·model a.now)) (spaced (Block·model b.now)) && equal (spaced (Block·serial a.now)) (spaced (Block·serial b.now))) }
{
    if eights::same_text(identify::serial(a), identify::serial(b)) {
        return eights::same_text(identify::model(a), identify::model(b));
    }
    false
}

// Whether two blocks are of the same drive, where it is known whether the second carries a name. Two names or two texts nearly always
// differ, so that the first block is asked last whether it carries one; where it has the second's name, only its word 87.
pub fn same_drive(a: &[u8], b: &[u8], named: bool) -> bool
    requires { (length a.now ≡ 512) × (length b.now ≡ 512) × (named ≡ carries_name b.now) }
    ensures { result ≡ same_drive a.now b.now }
{
    if named {
        if same_name(a, b) {
            return identify::says_named(identify::word(a, 87));
        }
        return false;
    }
    if same_texts(a, b) {
        return !identify::carries_name(a);
    }
    false
}
