// Marks of the pairs that rows name: sixteen rows of sixteen bytes, the next state plus one, or 0 at a pair without a row.
#![tactic(auto)]

ghost use Rattle.std.specs.Prelude.{◌≡◌, ◌≤◌, length};
ghost use Rattle.rulerows.specs.Inner.{RowFits, SpanMarked, RowMarked};

use rulerows::rows::Row;

// Marks the places from `start` to before `stop`: whether none of them had a mark.
fn mark_span(marks: &mut [u8], start: usize, stop: usize, mark: u8) -> bool
    requires { stop ≤ length marks.old }
    ensures { SpanMarked marks.old marks.new start stop mark result }
{
    for i in start..stop {
        if marks[i] != 0 {
            return false;
        }
        marks[i] = mark;
    }
    true
}

// Marks the pairs that a row names with its next state: whether none of them had a mark. Where one had, what the marks become is left open.
pub fn mark_row(marks: &mut [u8], row: Row) -> bool
    requires { (length marks.old ≡ 256) × (RowFits row) }
    ensures { RowMarked row marks.old marks.new result }
{
    let states = row.states;
    let symbols = row.symbols;
    let last = states.last as usize;
    let first = symbols.first as usize;
    let stop = symbols.last as usize + 1;
    let mark = (row.next + 1) as u8;
    for q in states.first as usize..=last {
        if !mark_span(marks, q * 16 + first, q * 16 + stop, mark) {
            return false;
        }
    }
    true
}
