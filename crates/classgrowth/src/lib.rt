// The growth of the class rows from the after words of the exits, backwards over the edges and by calls that may come back in.
#![tactic(auto)]

ghost use Rattle.std.specs.Prelude.{◌<◌, ◌≤◌};
ghost use Rattle.buffer.specs.Layout.{Lent};
ghost use Rattle.tables.specs.Rows.{CellsBelow};
ghost use Rattle.tables.specs.Held.{EdgesWithin, Usable};
ghost use Rattle.classes.specs.Backwards.{ClassesFound};
ghost use Rattle.classes.specs.Classes.{NodeGrown, ClassesGrown};
ghost use Rattle.classes.specs.Returns.{ClassesTurned};

use afterwords::word_row;
use classreturns::class_returns;
use classrows::{class_rows, join_classes};
use nextrows::successor_row;
use nodereads::call_set;

// Joins into the rows of node n what they and the rows of its successors tell apart: the number of rows that grew.
fn class_node(
    work: &mut [u8],
    table: &[[u8; 16]; 16],
    finals: u16,
    states: usize,
    n: usize,
) -> usize
    requires { (Lent work.old) × ((n < 512) × ((states ≤ 16) × (CellsBelow table.now × EdgesWithin work.old n))) }
    ensures { NodeGrown table.now finals states work.old work.new n result }
{
    let set = call_set(work, n);
    let rows = class_rows(work, n);
    let mut grown = 0;
    for p in 0..states {
        let words = word_row(&rows, table, finals, states, set, p);
        let row = words | successor_row(work, table, finals, states, n, p);
        grown += join_classes(work, n, p, row);
    }
    grown
}

// Grows the rows of all nodes once, from the last node to the first: the number of rows that grew.
fn class_round(
    work: &mut [u8],
    table: &[[u8; 16]; 16],
    finals: u16,
    states: usize,
    nodes: usize,
) -> usize
    requires { Usable work.old table.now states nodes }
    ensures { ClassesGrown table.now finals states nodes work.old work.new result }
{
    let mut grown = 0;
    for n in (0..nodes).rev() {
        grown += class_node(work, table, finals, states, n);
    }
    grown
}

// Grows the rows of all nodes once over the edges and, where none grew, by calls that may come back in: the number of rows that grew.
fn class_turn(
    work: &mut [u8],
    table: &[[u8; 16]; 16],
    finals: u16,
    states: usize,
    nodes: usize,
) -> usize
    requires { Usable work.old table.now states nodes }
    ensures { ClassesTurned table.now finals states nodes work.old work.new result }
{
    let grown = class_round(work, table, finals, states, nodes);
    if grown != 0 {
        return grown;
    }
    class_returns(work, table, finals, states, nodes)
}

// Grows the class rows, which hold the after words of the exits, until they hold every pair told apart past each node.
pub fn grow_classes(
    work: &mut [u8],
    table: &[[u8; 16]; 16],
    finals: u16,
    states: usize,
    nodes: usize,
)
    requires { Usable work.old table.now states nodes }
    ensures { ClassesFound table.now finals states nodes work.old work.new }
{
    let mut grown = 1;
    while grown != 0 {
        grown = class_turn(work, table, finals, states, nodes);
    }
}
