// Calls that may come back in, in the class rows: past one of them the walk may go to any entry, and where the word after an exit ends to
// any of them.
#![tactic(auto)]

ghost use Rattle.std.specs.Prelude.{◌<◌, ◌≤◌};
ghost use Rattle.buffer.specs.Layout.{Lent};
ghost use Rattle.tables.specs.Rows.{CellsBelow};
ghost use Rattle.tables.specs.Held.{Usable};
ghost use Rattle.tables.specs.Sixteen.{Sixteen};
ghost use Rattle.classes.specs.Backwards.{NodeJoined};
ghost use Rattle.classes.specs.Returns.{ClassesReturned};
ghost use Rattle.classreturns.specs.Joins.{ToCall, ToExit, ToExitWithin, NodesJoined};

use afterwords::after_node;
use classrows::join_class_rows;
use nodereads::{any_reentrant, is_exit, is_reentrant};
use returnrows::{call_rows, entry_rows};

// Joins the rows at node n, where it is a call that may come back in: the number of rows that grew.
fn join_call(work: &mut [u8], n: usize, rows: &[u16; 16]) -> usize
    requires { (Lent work.old) × (n < 512) }
    ensures { NodeJoined (ToCall rows.now) (ToCall rows.now) work.old work.new n result }
{
    if is_reentrant(work, n) {
        return join_class_rows(work, n, rows);
    }
    0
}

// Joins the rows at every call that may come back in: the number of rows that grew.
fn join_calls(work: &mut [u8], nodes: usize, rows: &[u16; 16]) -> usize
    requires { (Lent work.old) × (nodes ≤ 512) }
    ensures { NodesJoined (ToCall rows.now) (ToCall rows.now) work.old work.new nodes result }
{
    let mut grown = 0;
    for n in 0..nodes {
        grown += join_call(work, n, rows);
    }
    grown
}

// Joins at node n, where it is an exit, the states told apart by a word over its after set, or by the rows where it ends: the number of rows
// that grew.
fn join_exit(
    work: &mut [u8],
    table: &[[u8; 16]; 16],
    finals: u16,
    states: usize,
    n: usize,
    rows: [u16; 16],
) -> usize
    requires { (Lent work.old) × ((n < 512) × ((states ≤ 16) × (CellsBelow table.now × Sixteen rows))) }
    ensures { NodeJoined (ToExit table.now finals states rows) (ToExitWithin table.now finals states rows) work.old work.new n result }
{
    if is_exit(work, n) {
        return after_node(work, table, finals, states, n, rows);
    }
    0
}

// The same at every exit.
fn join_exits(
    work: &mut [u8],
    table: &[[u8; 16]; 16],
    finals: u16,
    states: usize,
    nodes: usize,
    rows: [u16; 16],
) -> usize
    requires { (Lent work.old) × ((nodes ≤ 512) × ((states ≤ 16) × (CellsBelow table.now × Sixteen rows))) }
    ensures { NodesJoined (ToExit table.now finals states rows) (ToExitWithin table.now finals states rows) work.old work.new nodes result }
{
    let mut grown = 0;
    for n in 0..nodes {
        grown += join_exit(work, table, finals, states, n, rows);
    }
    grown
}

// Grows the class rows once by calls that may come back in: the number of rows that grew.
pub fn class_returns(
    work: &mut [u8],
    table: &[[u8; 16]; 16],
    finals: u16,
    states: usize,
    nodes: usize,
) -> usize
    requires { Usable work.old table.now states nodes }
    ensures { ClassesReturned table.now finals states nodes work.old work.new result }
{
    if any_reentrant(work, nodes) {
        let entries = entry_rows(work, table, finals, states, nodes);
        let grown = join_calls(work, nodes, &entries);
        let calls = call_rows(work, nodes);
        return grown + join_exits(work, table, finals, states, nodes, calls);
    }
    0
}
