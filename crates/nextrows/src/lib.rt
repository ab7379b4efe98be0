// The states told apart before a node, and before the successors of one.
#![tactic(auto)]

ghost use Rattle.std.specs.Prelude.{◌≡◌, ◌<◌, ◌≤◌};
ghost use Rattle.laws.specs.Bounded.{tab};
ghost use Rattle.buffer.specs.Layout.{Lent};
ghost use Rattle.tables.specs.Rows.{CellsBelow};
ghost use Rattle.tables.specs.Held.{EdgesWithin};
ghost use Rattle.classes.specs.Classes.{before_row, NextRow};

use classrows::class_row;
use graphreads::{start_at, target_at};
use images::{next_state, preimage_under, unlike_states};
use nodereads::{is_shadow, symbol_at};

// The states told apart from p before node m.
fn before_row(
    work: &[u8],
    table: &[[u8; 16]; 16],
    finals: u16,
    states: usize,
    m: usize,
    p: usize,
) -> u16
    requires { (Lent work.now) × ((m < 512) × ((p < 16) × ((states ≤ 16) × CellsBelow table.now))) }
    ensures { result ≡ before_row table.now finals states work.now m p }
{
    if is_shadow(work, m) {
        let a = symbol_at(work, m);
        let state = next_state(table, p, a);
        let apart = class_row(work, m, state) | unlike_states(finals, state);
        return preimage_under(table, states, a, apart);
    }
    class_row(work, m, p)
}

// All rows of the states told apart before node m.
pub fn before_rows(
    work: &[u8],
    table: &[[u8; 16]; 16],
    finals: u16,
    states: usize,
    m: usize,
) -> [u16; 16]
    requires { (Lent work.now) × ((m < 512) × ((states ≤ 16) × CellsBelow table.now)) }
    ensures { result ≡ tab 16 (before_row table.now finals states work.now m) }
{
    let mut rows = [0u16; 16];
    for p in 0..16 {
        rows[p] = before_row(work, table, finals, states, m, p);
    }
    rows
}

// The states told apart from p before some successor of node n.
pub fn successor_row(
    work: &[u8],
    table: &[[u8; 16]; 16],
    finals: u16,
    states: usize,
    n: usize,
    p: usize,
) -> u16
    requires { (Lent work.now) × ((n < 512) × ((p < 16) × ((states ≤ 16) × (CellsBelow table.now × EdgesWithin work.now n)))) }
    ensures { NextRow table.now finals states work.now n p result }
{
    let end = start_at(work, n + 1);
    let mut out = 0;
    for i in start_at(work, n)..end {
        let m = target_at(work, i);
        out |= before_row(work, table, finals, states, m, p);
    }
    out
}
