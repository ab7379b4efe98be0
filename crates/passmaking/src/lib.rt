// Passes over the plan: one pass, and passes until none removes a point.
#![tactic(auto)]

ghost use Rattle.std.specs.Prelude.{◌≤◌};
ghost use Rattle.tables.specs.Held.{Usable};
ghost use Rattle.passes.specs.Passes.{Carried, PassMade, PassesMade};

use passes::passes::{Counts, Progress};
use tries::{first_gone, last_gone};

// One pass in number order, over a plan whose nodes from `progress.last` on were tried since it last changed: where none before them goes it
// is over.
fn pass(
    work: &mut [u8],
    table: &[[u8; 16]; 16],
    finals: u16,
    states: usize,
    nodes: usize,
    progress: Progress,
) -> Progress
    requires { (progress.last ≤ nodes) × (Usable work.old table.now states nodes × Carried work.old nodes progress.enabled) }
    ensures { PassMade table.now finals states nodes progress work.old work.new result }
{
    let gone = first_gone(work, table, finals, states, nodes, progress);
    if gone.last == 0 {
        return gone;
    }
    last_gone(work, table, finals, states, nodes, gone)
}

// Passes until one changes nothing, from a plan with all shadows enabled: the counts.
pub fn passes(
    work: &mut [u8],
    table: &[[u8; 16]; 16],
    finals: u16,
    states: usize,
    nodes: usize,
    shadows: usize,
) -> Counts
    requires { (1 ≤ nodes) × (Usable work.old table.now states nodes × Carried work.old nodes shadows) }
    ensures { PassesMade table.now finals states nodes work.old work.new shadows result }
{
    let mut progress = Progress {
        enabled: shadows,
        last: nodes,
    };
    let mut count = 0;
    while progress.last != 0 {
        progress = pass(work, table, finals, states, nodes, progress);
        count += 1;
    }
    Counts {
        shadows,
        enabled: progress.enabled,
        passes: count,
    }
}
