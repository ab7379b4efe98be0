// Sets of letter positions as numbers, and the state that has a set.
#![tactic(auto)]

ghost use Rattle.std.specs.Prelude.{◌≡◌, ◌<◌, ◌≤◌, length, get_or};
ghost use Rattle.expression.specs.Masks.{union_over, places_of};
ghost use Rattle.expressionrule.specs.Numbering.{PlacesAre, Onward, Sought, Added};

use expressionparts::part::set_when;

// The positions that follow a member of the set.
fn union_of(follow: &[u64], set: u64) -> u64
    requires { length follow.now ≡ 64 }
    ensures { result ≡ union_over (length follow.now) (λ p. get_or follow.now p 0) set }
{
    let mut out: u64 = 0;
    let mut rest = set;
    while rest != 0 {
        let q = rest.trailing_zeros() as usize;
        out |= follow[q];
        rest &= rest - 1;
    }
    out
}

// The positions of a symbol's letter.
fn places_of(text: &[u8], symbol: u8) -> u64
    requires { (length text.now ≤ 64) × (symbol < 16) }
    ensures { result ≡ places_of text.now (length text.now) symbol }
{
    let mut out: u64 = 0;
    for (q, c) in text.iter().enumerate() {
        out |= set_when(*c == 97 + symbol, 1 << q);
    }
    out
}

// Fills in the positions of each symbol's letter.
pub fn fill_places(text: &[u8], symbols: usize, places: &mut [u64])
    requires { (length text.now ≤ 64) × ((symbols ≤ 16) × (length places.old ≡ 16)) }
    ensures { PlacesAre text.now symbols places.new }
{
    for s in 0..symbols {
        places[s] = places_of(text, s as u8);
    }
}

// The positions that can come next in state q: the first ones in the start.
pub fn onward_of(follow: &[u64], firsts: u64, sets: &[u64], q: usize) -> u64
    requires { (length follow.now ≡ 64) × (q < length sets.now) }
    ensures { Onward follow.now firsts sets.now q result }
{
    if q == 0 {
        firsts
    } else {
        union_of(follow, sets[q])
    }
}

// The state from 1 on with a set, or the count where there is none.
pub fn seek(sets: &[u64], count: usize, set: u64) -> usize
    requires { (1 ≤ count) × (count ≤ length sets.now) }
    ensures { Sought sets.now count set result }
{
    for i in 1..count {
        if sets[i] == set {
            return i;
        }
    }
    count
}

// Puts a set that none of n states has behind theirs: the count of states. Where i is one of them, all stays.
pub fn add_set(sets: &mut [u64], n: usize, i: usize, set: u64) -> usize
    requires { (n ≤ 16) × (n ≤ i → n < length sets.old) }
    ensures { Added sets.old sets.new n i set result }
{
    if i < n {
        return n;
    }
    sets[n] = set;
    n + 1
}
