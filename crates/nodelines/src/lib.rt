// The P lines, read into the work buffer.
#![tactic(auto)]

ghost use Rattle.std.specs.Prelude.{◌≤◌, length, drop};
ghost use Rattle.buffer.specs.Layout.{Lent};
ghost use Rattle.jobhead.specs.ReadLines.{NodesRead};

use nodeline::node_line;
use refusal::Refusal;

// Reads the P lines from `at` on: `FileEnds`, `WrongLine` or `WrongNode`, or the sum of the entry sets, and the nodes are stored.
pub fn node_lines(
    file: &[u8],
    at: usize,
    work: &mut [u8],
    states: u64,
    symbols: u64,
    nodes: usize,
) -> Result<u64, Refusal>
    requires { (at ≤ length file.now) × ((Lent work.old) × ((states ≤ 16) × ((symbols ≤ 16) × (nodes ≤ 512)))) }
    ensures { NodesRead states symbols nodes (drop at file.now) work.old work.new result }
{
    let mut sum: u64 = 0;
    for n in 0..nodes {
        let entries = node_line(file, at + n * 38, work, states, symbols, n)?;
        sum += entries;
    }
    Ok(sum)
}
