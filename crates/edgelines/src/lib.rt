// The F lines, and the edges by source in the work buffer.
#![tactic(auto)]

ghost use Rattle.std.specs.Prelude.{◌≤◌, length, drop};
ghost use Rattle.buffer.specs.Layout.{Lent};
ghost use Rattle.jobhead.specs.Stored.{StartsFilled};
ghost use Rattle.jobhead.specs.ReadLines.{EdgesRead};
ghost use Rattle.refusal.specs.Refusal.{status_in};

use buffer::{STARTS, TARGETS};
use edgeline::edge_line;
use refusal::Refusal;
use stores::write16;

// Makes the starts of the nodes from a up to b the number v.
fn fill_starts(work: &mut [u8], a: usize, b: usize, v: u16)
    requires { (a ≤ b) × ((b ≤ 513) × (Lent work.old)) }
    ensures { StartsFilled work.old work.new a b v }
{
    for j in a..b {
        write16(work, STARTS + j * 2, v);
    }
}

// Reads the F lines from `at` on: `FileEnds`, `WrongLine` or `WrongEdge`, or the edges are stored by source.
pub fn edge_lines(
    file: &[u8],
    at: usize,
    work: &mut [u8],
    nodes: usize,
    edges: usize,
) -> Result<(), Refusal>
    requires { (at ≤ length file.now) × ((Lent work.old) × ((nodes ≤ 512) × (edges ≤ 2048))) }
    ensures { EdgesRead nodes edges (drop at file.now) work.old work.new (status_in result) }
{
    let count = nodes as u64;
    let mut next: u64 = 0;
    let mut done = 0;
    for e in 0..edges {
        let key = edge_line(file, at + e * 14, count, next)?;
        let from = (key / 512) as usize;
        fill_starts(work, done, from + 1, e as u16);
        write16(work, TARGETS + e * 2, (key % 512) as u16);
        done = from + 1;
        next = key + 1;
    }
    fill_starts(work, done, nodes + 1, edges as u16);
    Ok(())
}
