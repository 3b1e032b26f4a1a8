// The words of a line.
ghost use Rattle.std.specs.Prelude.{◌≡◌, map};
ghost use Rattle.order_words.specs.Words.{is_space, place_of};

// A space or a tab.
pub fn is_space(byte: &u8) -> bool
    ensures { result ≡ is_space byte.now }
{
    matches!(*byte, b' ' | b'\t')
}

// The place of a word among those of a list, the first being 0.
pub fn place_of(word: &[u8], list: &[&str]) -> Option<usize>
    ensures { result ≡ place_of word.now (map (λ other. other.now) list.now) }
{
    list.iter().position(|other| word == other.as_bytes())
}

// The same where the words of the list need be no text.
pub fn place_of_bytes(word: &[u8], list: &[&[u8]]) -> Option<usize>
    ensures { result ≡ place_of word.now (map (λ other. other.now) list.now) }
{
    list.iter().position(|other| word == *other)
}

#[cfg(test)]
mod tests {
    use super::*;

    // The names of the directions in RULES 16.5.
    #[test]
    fn a_name_has_its_place(rt: HostRuntime) {
        let names = ["none", "from", "to"];
        assert_eq!(rt; place_of(b"none", &names), Some(0));
        assert_eq!(rt; place_of(b"to", &names), Some(2));
        assert_eq!(rt; place_of(b"t", &names), None);
        assert_eq!(rt; place_of(b"to ", &names), None);
        assert_eq!(rt; place_of(b"", &names), None);
        assert_eq!(rt; place_of(b"to", &["to", "to"]), Some(0));
        assert_eq!(rt; place_of(b"to", &[]), None);
    }
}
