// Sixteen rows gathered from nodes: what is told apart before an entry, and past a call that may come back in.
#![tactic(auto)]

ghost use Rattle.std.specs.Prelude.{◌<◌, ◌≤◌};
ghost use Rattle.buffer.specs.Layout.{Lent};
ghost use Rattle.tables.specs.Rows.{CellsBelow};
ghost use Rattle.tables.specs.Sixteen.{Sixteen};
ghost use Rattle.relation.specs.Union.{Union, Below};
ghost use Rattle.returnrows.specs.Gathered.{RowsHold, AtEntry, AtCall};

use classrows::class_rows;
use nextrows::before_rows;
use nodereads::{is_entry, is_reentrant};
use relation::join_relation;

// Joins into the rows the states told apart before node m, where it is an entry.
fn gather_entry(
    rows: &mut [u16],
    work: &[u8],
    table: &[[u8; 16]; 16],
    finals: u16,
    states: usize,
    m: usize,
)
    requires { (Sixteen rows.old) × ((Lent work.now) × ((m < 512) × ((states ≤ 16) × CellsBelow table.now))) }
    ensures { (Sixteen rows.new) × Union (AtEntry table.now finals states work.now m) rows.old rows.new }
{
    if !is_entry(work, m) {
        return;
    }
    let more = before_rows(work, table, finals, states, m);
    join_relation(rows, &more);
}

// The states told apart before some entry.
pub fn entry_rows(
    work: &[u8],
    table: &[[u8; 16]; 16],
    finals: u16,
    states: usize,
    nodes: usize,
) -> [u16; 16]
    requires { (Lent work.now) × ((nodes ≤ 512) × ((states ≤ 16) × CellsBelow table.now)) }
    ensures { RowsHold (Below (AtEntry table.now finals states work.now) nodes) result }
{
    let mut rows = [0u16; 16];
    for n in 0..nodes {
        gather_entry(&mut rows, work, table, finals, states, n);
    }
    rows
}

// Joins into the rows the states told apart past node m, where it is a call that may come back in.
fn gather_call(rows: &mut [u16], work: &[u8], m: usize)
    requires { (Sixteen rows.old) × ((Lent work.now) × (m < 512)) }
    ensures { (Sixteen rows.new) × Union (AtCall work.now m) rows.old rows.new }
{
    if !is_reentrant(work, m) {
        return;
    }
    let more = class_rows(work, m);
    join_relation(rows, &more);
}

// The states told apart past some call that may come back in.
pub fn call_rows(work: &[u8], nodes: usize) -> [u16; 16]
    requires { (Lent work.now) × (nodes ≤ 512) }
    ensures { RowsHold (Below (AtCall work.now) nodes) result }
{
    let mut rows = [0u16; 16];
    for n in 0..nodes {
        gather_call(&mut rows, work, n);
    }
    rows
}
