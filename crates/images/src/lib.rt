// States and sets of states under the rule: unlike states, next states, images and preimages.
#![tactic(auto)]

ghost use Rattle.std.specs.Prelude.{◌≡◌, ◌<◌, ◌≤◌};
ghost use Rattle.automaton.specs.Automaton.{cell};
ghost use Rattle.tables.specs.Rows.{CellsBelow, unlike_states, image_of, preimage_of};

use sets::{contains, insert, lowest, without_lowest};

// The states that are final where p is not, or not where p is.
pub fn unlike_states(finals: u16, p: usize) -> u16
    requires { p < 16 }
    ensures { result ≡ unlike_states finals p }
{
    if !contains(finals, p as u32) {
        return finals;
    }
    !finals
}

// A cell of the table, as a number of a state.
pub fn next_state(table: &[[u8; 16]; 16], q: usize, a: usize) -> usize
    requires { (q < 16) × ((a < 16) × CellsBelow table.now) }
    ensures { (result ≡ cell table.now q a) × (result < 16) }
{
    table[q][a] as usize
}

// The states that a symbol leads to from a set.
pub fn image_under(table: &[[u8; 16]; 16], a: usize, s: u16) -> u16
    requires { (a < 16) × CellsBelow table.now }
    ensures { result ≡ image_of table.now a s }
{
    let mut out = 0;
    let mut rest = s;
    while rest != 0 {
        let q = next_state(table, lowest(rest) as usize, a);
        out = insert(out, q as u32);
        rest = without_lowest(rest);
    }
    out
}

// The states below S that a symbol leads into a set.
pub fn preimage_under(table: &[[u8; 16]; 16], states: usize, a: usize, s: u16) -> u16
    requires { (states ≤ 16) × ((a < 16) × CellsBelow table.now) }
    ensures { result ≡ preimage_of table.now states a s }
{
    let mut out = 0;
    for q in (0..states).rev() {
        let to = next_state(table, q, a);
        out = (out << 1) | ((s >> to) & 1);
    }
    out
}
