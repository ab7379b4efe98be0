// One P line, read into the work buffer.
#![tactic(auto)]

ghost use Rattle.std.specs.Prelude.{◌<◌, ◌≤◌, length, drop};
ghost use Rattle.buffer.specs.Layout.{Lent};
ghost use Rattle.jobhead.specs.ReadLines.{NodeRead};

use duelines::due_line;
use nodestore::store_node;
use nodetest::is_node;
use refusal::Refusal;

// Reads the P line at `at` as node n: `FileEnds`, `WrongLine` or `WrongNode`, or its entry set, and the node is stored.
pub fn node_line(
    file: &[u8],
    at: usize,
    work: &mut [u8],
    states: u64,
    symbols: u64,
    n: usize,
) -> Result<u64, Refusal>
    requires { (at ≤ length file.now) × ((Lent work.old) × ((states ≤ 16) × ((symbols ≤ 16) × (n < 512)))) }
    ensures { NodeRead states symbols n (drop at file.now) work.old work.new result }
{
    let mut numbers = [0u64; 6];
    due_line(file, at, 80, 6, &mut numbers)?;
    if !is_node(states, symbols, n as u64, &numbers) {
        return Err(Refusal::WrongNode);
    }
    store_node(work, n, &numbers);
    Ok(numbers[3])
}
