// What the words after the exits lead to, on sixteen rows by value.
#![tactic(auto)]

ghost use Rattle.std.specs.Prelude.{◌≤◌, ◌<◌};
ghost use Rattle.buffer.specs.Layout.{Lent};
ghost use Rattle.tables.specs.Rows.{CellsBelow};
ghost use Rattle.tables.specs.Sixteen.{Sixteen};
ghost use Rattle.exitrows.specs.Ended.{PastJoined, PastGathered, EndedJoined, ExitRows};

use graphreads::is_enabled;
use moves::past_row;
use nodereads::{after_set, is_exit, is_shadow, symbol_at};
use relation::{join_relation, join_row};
use rows::pair_row;
use spelling::close_forward;

// Joins row p of node n, past the node, into sixteen rows: the row itself.
fn join_past(
    rows: &mut [u16],
    work: &[u8],
    table: &[[u8; 16]; 16],
    finals: u16,
    n: usize,
    p: usize,
) -> u16
    requires { (Sixteen rows.old) × ((Lent work.now) × ((n < 512) × ((p < 16) × CellsBelow table.now))) }
    ensures { PastJoined table.now finals work.now rows.old rows.new n p result }
{
    let s = pair_row(work, n, p);
    if s == 0 {
        return 0;
    }
    let past = past_row(
        table,
        finals,
        is_shadow(work, n),
        symbol_at(work, n),
        is_enabled(work, n),
        p,
        s,
    );
    let state = past.state;
    join_row(rows, state, past.set);
    s
}

// Joins the rows of node n, past the node, into sixteen rows: 0 where they have no pair.
fn join_past_rows(
    rows: &mut [u16],
    work: &[u8],
    table: &[[u8; 16]; 16],
    finals: u16,
    n: usize,
) -> u16
    requires { (Sixteen rows.old) × ((Lent work.now) × ((n < 512) × CellsBelow table.now)) }
    ensures { PastGathered table.now finals work.now rows.old rows.new n result }
{
    let mut any = 0;
    for p in 0..16 {
        any |= join_past(rows, work, table, finals, n, p);
    }
    any
}

// Joins what the words after node n lead to into sixteen rows, where it is an exit.
fn join_ended(rows: &mut [u16], work: &[u8], table: &[[u8; 16]; 16], finals: u16, n: usize)
    requires { (Sixteen rows.old) × ((Lent work.now) × ((n < 512) × CellsBelow table.now)) }
    ensures { EndedJoined table.now finals work.now rows.old rows.new n }
{
    if !is_exit(work, n) {
        return;
    }
    let mut ended: [u16; 16] = [0; 16];
    if join_past_rows(&mut ended, work, table, finals, n) == 0 {
        return;
    }
    close_forward(&mut ended, table, after_set(work, n));
    join_relation(rows, &ended);
}

// What the words after all exits lead to, each word over the set of its own exit.
pub fn exit_rows(work: &[u8], table: &[[u8; 16]; 16], finals: u16, nodes: usize) -> [u16; 16]
    requires { (Lent work.now) × ((nodes ≤ 512) × CellsBelow table.now) }
    ensures { ExitRows table.now finals nodes work.now result }
{
    let mut rows: [u16; 16] = [0; 16];
    for n in 0..nodes {
        join_ended(&mut rows, work, table, finals, n);
    }
    rows
}
