// Tries: a node goes where the plan without it is faithful.
#![tactic(auto)]

ghost use Rattle.std.specs.Prelude.{◌≤◌};
ghost use Rattle.tables.specs.Held.{Usable};
ghost use Rattle.passes.specs.Passes.{Carried, FirstGone, LastGone};

use passes::passes::Progress;
use trynode::try_node;

// Tries the nodes before `progress.last` in turn until one goes: `last` is then one past that node, or 0 where none goes.
pub fn first_gone(
    work: &mut [u8],
    table: &[[u8; 16]; 16],
    finals: u16,
    states: usize,
    nodes: usize,
    progress: Progress,
) -> Progress
    requires { (progress.last ≤ nodes) × (Usable work.old table.now states nodes × Carried work.old nodes progress.enabled) }
    ensures { FirstGone table.now finals states nodes progress work.old work.new result }
{
    for n in 0..progress.last {
        let left = try_node(work, table, finals, states, nodes, n, progress.enabled);
        if left != progress.enabled {
            return Progress {
                enabled: left,
                last: n + 1,
            };
        }
    }
    Progress {
        enabled: progress.enabled,
        last: 0,
    }
}

// Tries the nodes from `progress.last` on: `last` is then one past the last node that goes, as it was where none does.
pub fn last_gone(
    work: &mut [u8],
    table: &[[u8; 16]; 16],
    finals: u16,
    states: usize,
    nodes: usize,
    progress: Progress,
) -> Progress
    requires { (progress.last ≤ nodes) × (Usable work.old table.now states nodes × Carried work.old nodes progress.enabled) }
    ensures { LastGone table.now finals states nodes progress work.old work.new result }
{
    let mut total = progress.enabled;
    let mut last = progress.last;
    for n in progress.last..nodes {
        let left = try_node(work, table, finals, states, nodes, n, total);
        if left != total {
            last = n + 1;
        }
        total = left;
    }
    Progress {
        enabled: total,
        last,
    }
}
