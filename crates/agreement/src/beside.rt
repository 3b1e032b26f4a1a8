// A run beside a page, by their sizes and the place up to which they agree.
ghost use Rattle.std.specs.Prelude.{◌≡◌, Bool, ◌&&◌, eqb};

use crate::Held;

// A run of a size that agrees up to a place with a page: they are the same where both end there.
pub fn held(size: usize, place: usize, page: usize) -> Held
    ensures { result ≡ record { same = eqb place page && eqb size page; place = place } }
{
    Held {
        same: (place == page) & (size == page),
        place,
    }
}
