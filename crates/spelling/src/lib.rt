// Words over a set, forwards: the pairs of states that they lead to, on sixteen rows by value.
#![tactic(auto)]

ghost use Rattle.std.specs.Prelude.{◌<◌};
ghost use Rattle.tables.specs.Rows.{CellsBelow};
ghost use Rattle.tables.specs.Sixteen.{Sixteen};
ghost use Rattle.spelling.specs.Spelling.{RowGrown, RowSpelt, Closed};

use images::{image_under, next_state};
use relation::join_row;
use sets::{insert, lowest, without_lowest};

// Joins a set into row p: the set of p where the row grows, the empty one where not.
fn grow_row(rows: &mut [u16], p: usize, s: u16) -> u16
    requires { (Sixteen rows.old) × (p < 16) }
    ensures { RowGrown rows.old rows.new p s result }
{
    if join_row(rows, p, s) == 0 {
        return 0;
    }
    insert(0, p as u32)
}

// Moves row p by each symbol of the set and joins it where the symbol leads: the rows that grew.
fn spell_row(rows: &mut [u16], table: &[[u8; 16]; 16], set: u16, p: usize) -> u16
    requires { (Sixteen rows.old) × ((p < 16) × CellsBelow table.now) }
    ensures { RowSpelt table.now rows.old rows.new set p result }
{
    let s = rows[p];
    if s == 0 {
        return 0;
    }
    let mut grown = 0;
    let mut rest = set;
    while rest != 0 {
        let a = lowest(rest) as usize;
        let state = next_state(table, p, a);
        let moved = image_under(table, a, s);
        grown |= grow_row(rows, state, moved);
        rest = without_lowest(rest);
    }
    grown
}

// Grows the rows until they hold every pair that a word over the set leads to.
pub fn close_forward(rows: &mut [u16], table: &[[u8; 16]; 16], set: u16)
    requires { (Sixteen rows.old) × CellsBelow table.now }
    ensures { Closed table.now rows.old rows.new set }
{
    if set == 0 {
        return;
    }
    let mut due = 65535;
    while due != 0 {
        let p = lowest(due) as usize;
        due = without_lowest(due) | spell_row(rows, table, set, p);
    }
}
