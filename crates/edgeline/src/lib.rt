// One F line.
#![tactic(auto)]

ghost use Rattle.std.specs.Prelude.{◌≡◌, ◌≤◌, length, drop};
ghost use Rattle.jobfile.specs.File.{good_edge};
ghost use Rattle.jobhead.specs.ReadLines.{before_of, EdgeRead};

use duelines::due_line;
use refusal::Refusal;

// Whether an F line's numbers are nodes and its key is at least `next`: refusal 8 is that they are not.
fn is_edge(nodes: u64, next: u64, numbers: &[u64; 2]) -> bool
    requires { nodes ≤ 512 }
    ensures { result ≡ good_edge nodes 0 (before_of next) numbers.now }
{
    let from = numbers[0];
    let to = numbers[1];
    if nodes <= from {
        return false;
    }
    if nodes <= to {
        return false;
    }
    next <= from * 512 + to
}

// Reads the F line at `at`, whose key is to be at least `next`: `FileEnds`, `WrongLine` or `WrongEdge`, or its key.
pub fn edge_line(file: &[u8], at: usize, nodes: u64, next: u64) -> Result<u64, Refusal>
    requires { (at ≤ length file.now) × (nodes ≤ 512) }
    ensures { EdgeRead nodes next (drop at file.now) result }
{
    let mut numbers = [0u64; 2];
    due_line(file, at, 70, 2, &mut numbers)?;
    if !is_edge(nodes, next, &numbers) {
        return Err(Refusal::WrongEdge);
    }
    Ok(numbers[0] * 512 + numbers[1])
}
