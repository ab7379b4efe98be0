// The lines of the listing, written from what the work buffer holds.
#![tactic(auto)]

ghost use Rattle.std.specs.Prelude.{◌+◌, ◌<◌, ◌≤◌, length};
ghost use Rattle.buffer.specs.Layout.{Lent};
ghost use Rattle.tables.specs.Rows.{CellsBelow};
ghost use Rattle.listingtext.specs.TextWritten.{PointsWritten, LinesWritten};

use listwriter::write_total_line;
use passes::passes::Counts;
use pointlines::write_point;

// Writes the W lines of all shadows in number order: the place after them.
fn write_points(
    work: &[u8],
    table: &[[u8; 16]; 16],
    out: &mut [u8],
    finals: u16,
    states: usize,
    nodes: usize,
) -> usize
    requires { (Lent work.now) × ((nodes ≤ 512) × ((states ≤ 16) × (CellsBelow table.now × (32768 ≤ length out.old)))) }
    ensures { PointsWritten table.now finals states nodes work.now out.old out.new result }
{
    let mut at = 0;
    for n in 0..nodes {
        at = write_point(work, table, out, at, finals, states, n);
    }
    at
}

// Writes the listing of what the work buffer holds: its length.
pub fn write_listing(
    work: &[u8],
    table: &[[u8; 16]; 16],
    out: &mut [u8],
    finals: u16,
    states: usize,
    nodes: usize,
    counts: Counts,
) -> usize
    requires { (Lent work.now) × ((nodes ≤ 512) × ((states ≤ 16) × (CellsBelow table.now × ((32768 ≤ length out.old)
        × ((counts.shadows < 1000000) × ((counts.enabled < 1000000) × (counts.passes < 1000000))))))) }
    ensures { LinesWritten table.now finals states nodes counts work.now out.old out.new result }
{
    let at = write_points(work, table, out, finals, states, nodes);
    let shadows = counts.shadows;
    let enabled = counts.enabled;
    let passes = counts.passes;
    write_total_line(out, at, shadows as u64, enabled as u64, passes as u64);
    at + 20
}
