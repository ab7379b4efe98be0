// What a day's events cost: the volume file read, and the sum over the watched points.
#![tactic(auto)]

ghost use Rattle.std.specs.Prelude.{◌≡◌, ◌*◌, ◌≤◌, length, drop};
ghost use Rattle.lines.specs.Line.{line_of};
ghost use Rattle.pricing.specs.Inner.{CostFit, Fit, Summed, cost_in, number_due};

use duelines::due_line;
use nodereads::symbol_at;
use refusal::Refusal;

// The number of the V line of node n, if it is there, names its node and is within its limit. This is `numbered_line` for V lines alone: a
// function with one caller is compiled into its caller's loop.
fn volume_line(volumes: &[u8], n: usize) -> Option<u64>
    requires { n * 14 ≤ length volumes.now }
    ensures { result ≡ number_due 999999 n (line_of 86 2 (drop (n * 14) volumes.now)) }
{
    let mut numbers = [0u64; 2];
    due_line(volumes, n * 14, 86, 2, &mut numbers).ok()?;
    if numbers[0] != n as u64 {
        return None;
    }
    if 999999 < numbers[1] {
        return None;
    }
    Some(numbers[1])
}

// What a day's events at node n cost, in thousandths of a cent: nothing where it is not watched.
fn cost_at(work: &[u8], plan: &[u8], n: usize, volume: u64, prices: &[u64; 16]) -> u64
    requires { CostFit work.now plan.now prices.now n volume }
    ensures { result ≡ cost_in prices.now work.now plan.now n volume }
{
    if plan[n] != 1 {
        return 0;
    }
    let symbol = symbol_at(work, n);
    volume * prices[symbol]
}

// Adds up what a day's events cost at the watched points, by the V lines of the volume file, in thousandths of a cent: `WrongVolumes` where the
// file is not one V line for each node and nothing more.
pub fn day_cost(
    volumes: &[u8],
    work: &[u8],
    plan: &[u8],
    nodes: usize,
    prices: &[u64; 16],
) -> Result<u64, Refusal>
    requires { Fit work.now plan.now prices.now nodes }
    ensures { Summed prices.now work.now plan.now volumes.now nodes result }
{
    if volumes.len() != nodes * 14 {
        return Err(Refusal::WrongVolumes);
    }
    let mut sum: u64 = 0;
    for n in 0..nodes {
        let Some(volume) = volume_line(volumes, n) else {
            return Err(Refusal::WrongVolumes);
        };
        sum += cost_at(work, plan, n, volume, prices);
    }
    Ok(sum)
}
