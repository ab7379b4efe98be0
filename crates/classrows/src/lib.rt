// The class rows of the work buffer: the states told apart past each node.
#![tactic(auto)]

ghost use Rattle.std.specs.Prelude.{◌≡◌, ◌<◌};
ghost use Rattle.laws.specs.Bounded.{tab};
ghost use Rattle.buffer.specs.Layout.{Lent};
ghost use Rattle.buffer.specs.Views.{class_row_in};
ghost use Rattle.buffer.specs.ClassRows.{ApartGrown, ApartJoined};

use buffer::CLASSES;
use loads::read16;
use stores::write16;

// Row p of the states told apart past node n.
pub fn class_row(work: &[u8], n: usize, p: usize) -> u16
    requires { (Lent work.now) × ((n < 512) × (p < 16)) }
    ensures { result ≡ class_row_in work.now n p }
{
    read16(work, CLASSES + (n * 16 + p) * 2)
}

// Joins a set into row p of the states told apart past node n: 1 where the row grows, 0 where not.
pub fn join_classes(work: &mut [u8], n: usize, p: usize, s: u16) -> usize
    requires { (Lent work.old) × ((n < 512) × (p < 16)) }
    ensures { ApartGrown work.old work.new n p s result }
{
    let at = CLASSES + (n * 16 + p) * 2;
    let old = read16(work, at);
    let new = old | s;
    if new == old {
        return 0;
    }
    write16(work, at, new);
    1
}

// All rows of the states told apart past node n.
pub fn class_rows(work: &[u8], n: usize) -> [u16; 16]
    requires { (Lent work.now) × (n < 512) }
    ensures { result ≡ tab 16 (class_row_in work.now n) }
{
    let mut rows = [0u16; 16];
    for p in 0..16 {
        rows[p] = class_row(work, n, p);
    }
    rows
}

// Joins sixteen rows into those of the states told apart past node n: the number of rows that grew.
pub fn join_class_rows(work: &mut [u8], n: usize, rows: &[u16; 16]) -> usize
    requires { (Lent work.old) × (n < 512) }
    ensures { ApartJoined work.old work.new n rows.now result }
{
    let mut grown = 0;
    for p in 0..16 {
        grown += join_classes(work, n, p, rows[p]);
    }
    grown
}
