// A relation on states by value: sixteen rows, a set of states for each state. Sets and other relations are joined into it.
#![tactic(auto)]

ghost use Rattle.std.specs.Prelude.{◌<◌};
ghost use Rattle.tables.specs.Sixteen.{InRows, Sixteen, RowJoined};
ghost use Rattle.relation.specs.Union.{Union};

// Joins a set into row p: 1 where the row grows, 0 where not.
pub fn join_row(rows: &mut [u16], p: usize, s: u16) -> usize
    requires { (Sixteen rows.old) × (p < 16) }
    ensures { RowJoined rows.old rows.new p s result }
{
    let old = rows[p];
    let joined = old | s;
    if joined == old {
        return 0;
    }
    rows[p] = joined;
    1
}

// Joins sixteen rows into sixteen others.
pub fn join_relation(rows: &mut [u16], more: &[u16; 16])
    requires { Sixteen rows.old }
    ensures { (Sixteen rows.new) × Union (InRows more.now) rows.old rows.new }
{
    for p in 0..16 {
        join_row(rows, p, more[p]);
    }
}
