// The calls that may come back in and the entries, in the rows of pairs: sixteen rows joined at them, and the rows of the calls gathered.
#![tactic(auto)]

ghost use Rattle.std.specs.Prelude.{◌≡◌, Bool, ℕ, ◌≤◌, ◌<◌};
ghost use Rattle.job.specs.Job.{Node, is_reentrant, is_entry};
ghost use Rattle.buffer.specs.Layout.{Lent};
ghost use Rattle.buffer.specs.Views.{node_in};
ghost use Rattle.tables.specs.Sixteen.{Sixteen};
ghost use Rattle.relation.specs.Union.{Union};
ghost use Rattle.reentry.specs.Reentry.{JoinedIf, JoinedWhere, EnteringAt, EnteringRows};

use nodereads::{is_entry, is_reentrant};
use relation::join_row;
use rows::pair_row;
use successors::join_rows;

// A test of a node.
trait NodeTest {
    ghost holds: { Node → Bool };

    fn passes(work: &[u8], n: usize) -> bool
        requires { (Lent work.now) × (n < 512) }
        ensures { result ≡ holds (node_in work.now n) };
}

// Whether it is a call that may come back in.
struct Reentrant;

impl NodeTest for Reentrant {
    ghost holds = { λ x. is_reentrant x.kind };

    fn passes(work: &[u8], n: usize) -> bool {
        is_reentrant(work, n)
    }
}

// Whether it is an entry.
struct Entry;

impl NodeTest for Entry {
    ghost holds = { is_entry };

    fn passes(work: &[u8], n: usize) -> bool {
        is_entry(work, n)
    }
}

// Joins sixteen rows into those of node n where it passes the test.
fn join_if<T: NodeTest>(work: &mut [u8], n: usize, rows: &[u16; 16])
    requires { (Lent work.old) × (n < 512) }
    ensures { JoinedIf (T.holds (node_in work.old n)) work.old work.new n rows.now }
{
    if !T::passes(work, n) {
        return;
    }
    join_rows(work, n, rows);
}

// Joins sixteen rows at every node that passes the test.
fn join_where<T: NodeTest>(work: &mut [u8], nodes: usize, rows: &[u16; 16])
    requires { (Lent work.old) × (nodes ≤ 512) }
    ensures { JoinedWhere (λ (n : ℕ). T.holds (node_in work.old n)) work.old work.new nodes rows.now }
{
    for n in 0..nodes {
        join_if::<T>(work, n, rows);
    }
}

// Joins sixteen rows at every call that may come back in.
pub fn join_reentrants(work: &mut [u8], nodes: usize, rows: &[u16; 16])
    requires { (Lent work.old) × (nodes ≤ 512) }
    ensures { JoinedWhere (λ (n : ℕ). is_reentrant (node_in work.old n).kind) work.old work.new nodes rows.now }
{
    join_where::<Reentrant>(work, nodes, rows);
}

// Joins sixteen rows at every entry.
pub fn join_entries(work: &mut [u8], nodes: usize, rows: &[u16; 16])
    requires { (Lent work.old) × (nodes ≤ 512) }
    ensures { JoinedWhere (λ (n : ℕ). is_entry (node_in work.old n)) work.old work.new nodes rows.now }
{
    join_where::<Entry>(work, nodes, rows);
}

// Joins the rows of node n into sixteen rows where it is a call that may come back in.
fn join_entering(rows: &mut [u16], work: &[u8], n: usize)
    requires { (Sixteen rows.old) × ((Lent work.now) × (n < 512)) }
    ensures { (Sixteen rows.new) × Union (EnteringAt work.now n) rows.old rows.new }
{
    if !is_reentrant(work, n) {
        return;
    }
    for p in 0..16 {
        join_row(rows, p, pair_row(work, n, p));
    }
}

// The rows of all calls that may come back in: they hold the pairs after the calls' words.
pub fn entering_rows(work: &[u8], nodes: usize) -> [u16; 16]
    requires { (Lent work.now) × (nodes ≤ 512) }
    ensures { EnteringRows work.now nodes result }
{
    let mut rows: [u16; 16] = [0; 16];
    for n in 0..nodes {
        join_entering(&mut rows, work, n);
    }
    rows
}
