// What is found at a point: its before set, the lowest states of its classes, and its nop mark.
#![tactic(auto)]

ghost use Rattle.std.specs.Prelude.{◌≡◌, ◌<◌, ◌≤◌};
ghost use Rattle.buffer.specs.Layout.{Lent};
ghost use Rattle.tables.specs.Rows.{CellsBelow};
ghost use Rattle.classes.specs.Backwards.{held_states, is_nop};

use classrows::class_row;
use images::next_state;
use rows::pair_row;
use sets::{contains, insert, lowest, without_lowest};

// The states whose rows at node n hold pairs.
pub fn held_states(work: &[u8], n: usize, states: usize) -> u16
    requires { (Lent work.now) × ((n < 512) × (states ≤ 16)) }
    ensures { result ≡ held_states work.now n states }
{
    let mut out = 0;
    for q in 0..states {
        if pair_row(work, n, q) != 0 {
            out = insert(out, q as u32);
        }
    }
    out
}

// The nop mark of a shadow: from every state of its before set the symbol leads to one that is not final and of the same class.
pub fn is_nop(
    work: &[u8],
    table: &[[u8; 16]; 16],
    finals: u16,
    n: usize,
    a: usize,
    before: u16,
) -> bool
    requires { (Lent work.now) × ((n < 512) × ((a < 16) × CellsBelow table.now)) }
    ensures { result ≡ is_nop table.now finals work.now n a before }
{
    let mut rest = before;
    while rest != 0 {
        let q = lowest(rest);
        let to = next_state(table, q as usize, a);
        if contains(finals, to as u32) {
            return false;
        }
        if contains(class_row(work, n, to), q) {
            return false;
        }
        rest = without_lowest(rest);
    }
    true
}
