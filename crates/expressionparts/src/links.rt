// Which positions follow one another, in a lent buffer: the set of those that can come right after each position.
ghost use Rattle.std.specs.Prelude.{◌≡◌, ◌≤◌, length};
ghost use Rattle.expressionparts.specs.Reading.{Linked, Starred};

use super::chars::is_at;
use super::part::{Part, up_to};

// Lets the positions of `firsts` follow those of `lasts`.
pub fn link(follow: &mut [u64], lasts: u64, firsts: u64)
    requires { length follow.old ≡ 64 }
    ensures { Linked follow.old follow.new lasts firsts }
{
    let mut rest = lasts;
    while rest != 0 {
        let q = rest.trailing_zeros() as usize;
        follow[q] |= firsts;
        rest &= rest - 1;
    }
}

// The part with the stars that follow it.
pub fn with_stars(text: &[u8], d: Part, follow: &mut [u64]) -> Part
    requires { (length follow.old ≡ 64) × (length text.now ≤ length follow.old) }
    ensures { Starred text.now d follow.old follow.new result }
{
    if !is_at(text, d.end, 42) {
        return d;
    }
    link(follow, d.last, d.first);
    let mut end = d.end + 1;
    while is_at(text, end, 42) {
        end += 1;
    }
    up_to(d, end, true)
}
