// The states of a rule made from an expression, numbered breadth first, and those that are final.
#![tactic(auto)]

ghost use Rattle.std.specs.Prelude.{◌≡◌, ◌≤◌, length};
ghost use Rattle.expressionrule.specs.Numbering.{RowReady, RowDone, RowsReady, AllDone, FinalsOf};
ghost use Rattle.statenumbers.specs.Inner.{Counted};

use expressionparts::part::set_when;
use positionsets::{add_set, fill_places, onward_of, seek};

// Fills row q: the count of states, or none where it would be more than 16.
fn number_row(
    places: &[u64],
    follow: &[u64],
    firsts: u64,
    symbols: usize,
    q: usize,
    count: usize,
    sets: &mut [u64],
    cells: &mut [u8],
) -> Option<usize>
    requires { RowReady symbols places.now follow.now q count sets.old cells.old }
    ensures { Counted (λ n. RowDone symbols places.now follow.now firsts q count sets.old cells.old
        sets.new cells.new n) result }
{
    let onward = onward_of(follow, firsts, sets, q);
    let mut n = count;
    for s in 0..symbols {
        let set = onward & places[s];
        let i = seek(sets, n, set);
        if i == 16 {
            return None;
        }
        n = add_set(sets, n, i, set);
        cells[q * 16 + s] = i as u8;
    }
    Some(n)
}

// Fills the rows of all states that are met: their count, or none where it would be more than 16.
pub fn number_states(
    text: &[u8],
    follow: &[u64],
    firsts: u64,
    symbols: usize,
    sets: &mut [u64],
    cells: &mut [u8],
) -> Option<usize>
    requires { RowsReady symbols text.now follow.now sets.old cells.old }
    ensures { Counted (λ n. AllDone symbols text.now follow.now firsts sets.old cells.old
        sets.new cells.new n) result }
{
    let mut places = [0u64; 16];
    fill_places(text, symbols, &mut places);
    let mut n = 1;
    let mut q = 0;
    while q < n {
        n = number_row(&places, follow, firsts, symbols, q, n, sets, cells)?;
        q += 1;
    }
    Some(n)
}

// The final states: those from 1 on whose set has a last position.
pub fn final_states(sets: &[u64], count: usize, lasts: u64) -> u64
    requires { (count ≤ 16) × (length sets.now ≡ 16) }
    ensures { FinalsOf lasts sets.now count result }
{
    let mut out: u64 = 0;
    for q in 1..count {
        out |= set_when(sets[q] & lasts != 0, 1 << q);
    }
    out
}
