// Program words: what a word behind a program's name asks for. The rule stands in specs/Words; what comes of it is in `input`.
#![tactic(auto)]

ghost use Rattle.std.specs.Prelude.{◌≡◌, Option};
ghost use Rattle.program_words.specs.Words.{wanted_by};

// What a program is asked for.
#[derive(Clone, Copy, Debug, PartialEq, Eq)]
pub enum Wanted {
    Read,
    Help,
    Version,
}

// What a word asks for. None is a word that asks for nothing that there is.
#[tactic(auto, unfolding(crate::specs::Words::wanted_by))]
pub fn word_wants(word: &[u8]) -> Option<Wanted>
    ensures { result ≡ wanted_by word.now }
{
    if word == b"--help".as_slice() {
        return Some(Wanted::Help);
    }
    if word == b"--version".as_slice() {
        return Some(Wanted::Version);
    }
    if word.starts_with(b"-") {
        return None;
    }
    Some(Wanted::Read)
}
