// The states told apart by words over a set: on sixteen rows by value, and by the after words of the exits in the class rows.
#![tactic(auto)]

ghost use Rattle.std.specs.Prelude.{◌≡◌, ◌<◌, ◌≤◌, length};
ghost use Rattle.buffer.specs.Layout.{Lent};
ghost use Rattle.tables.specs.Rows.{CellsBelow};
ghost use Rattle.tables.specs.Held.{Usable};
ghost use Rattle.tables.specs.Sixteen.{Sixteen};
ghost use Rattle.classes.specs.Backwards.{word_row, rows_of, WordsGrown, WordsClosed, AfterJoined, AfterWords};

use classrows::join_class_rows;
use clearing::clear_classes;
use images::{next_state, preimage_under, unlike_states};
use nodereads::after_set;
use relation::join_row;
use sets::{lowest, without_lowest};

// The states told apart from p by a symbol of the set, with what the rows hold for the states that it leads to.
pub fn word_row(
    rows: &[u16],
    table: &[[u8; 16]; 16],
    finals: u16,
    states: usize,
    set: u16,
    p: usize,
) -> u16
    requires { (length rows.now ≡ 16) × ((p < 16) × ((states ≤ 16) × CellsBelow table.now)) }
    ensures { result ≡ word_row table.now finals states (rows_of rows.now) set p }
{
    let mut out = 0;
    let mut rest = set;
    while rest != 0 {
        let a = lowest(rest) as usize;
        let state = next_state(table, p, a);
        let apart = rows[state] | unlike_states(finals, state);
        out |= preimage_under(table, states, a, apart);
        rest = without_lowest(rest);
    }
    out
}

// One round of words over a set on sixteen rows: the number of rows that grew.
fn word_round(
    rows: &mut [u16],
    table: &[[u8; 16]; 16],
    finals: u16,
    states: usize,
    set: u16,
) -> usize
    requires { (Sixteen rows.old) × ((states ≤ 16) × CellsBelow table.now) }
    ensures { WordsGrown table.now finals states rows.old rows.new set result }
{
    let mut grown = 0;
    for p in 0..states {
        let row = word_row(rows, table, finals, states, set, p);
        grown += join_row(rows, p, row);
    }
    grown
}

// Grows sixteen rows until they hold every state told apart by a word over the set, or by what they held and such a word leads to; nothing
// where the set is empty.
fn close_words(rows: &mut [u16], table: &[[u8; 16]; 16], finals: u16, states: usize, set: u16)
    requires { (Sixteen rows.old) × ((states ≤ 16) × CellsBelow table.now) }
    ensures { WordsClosed table.now finals states rows.old rows.new set }
{
    let mut grown = set as usize;
    while grown != 0 {
        grown = word_round(rows, table, finals, states, set);
    }
}

// Joins into the class rows of node n the states told apart by a word over its after set, or by what the rows tell apart where it ends:
// the number of rows that grew.
pub fn after_node(
    work: &mut [u8],
    table: &[[u8; 16]; 16],
    finals: u16,
    states: usize,
    n: usize,
    rows: [u16; 16],
) -> usize
    requires { (Lent work.old) × ((n < 512) × ((states ≤ 16) × (CellsBelow table.now × Sixteen rows))) }
    ensures { AfterJoined table.now finals states work.old work.new n rows result }
{
    let set = after_set(work, n);
    let mut closed = rows;
    close_words(&mut closed, table, finals, states, set);
    join_class_rows(work, n, &closed)
}

// Fills the class rows with the after words of the exits.
pub fn after_words(
    work: &mut [u8],
    table: &[[u8; 16]; 16],
    finals: u16,
    states: usize,
    nodes: usize,
)
    requires { Usable work.old table.now states nodes }
    ensures { AfterWords table.now finals states nodes work.old work.new }
{
    clear_classes(work);
    for n in 0..nodes {
        after_node(work, table, finals, states, n, [0; 16]);
    }
}
