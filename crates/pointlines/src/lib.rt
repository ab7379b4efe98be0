// The line of a point, written from what the work buffer holds.
#![tactic(auto)]

ghost use Rattle.std.specs.Prelude.{◌+◌, ◌<◌, ◌≤◌, length};
ghost use Rattle.buffer.specs.Layout.{Lent};
ghost use Rattle.tables.specs.Rows.{CellsBelow};
ghost use Rattle.listingtext.specs.TextWritten.{PointWritten};

use beforestore::before_set;
use classreads::class_count;
use graphreads::is_enabled;
use listwriter::write_shadow_line;
use nodereads::{is_shadow, symbol_at};
use points::is_nop;

// Writes the W line of node n from `at` on, where it is a shadow: the place after it.
pub fn write_point(
    work: &[u8],
    table: &[[u8; 16]; 16],
    out: &mut [u8],
    at: usize,
    finals: u16,
    states: usize,
    n: usize,
) -> usize
    requires { (Lent work.now) × ((n < 512) × ((states ≤ 16) × (CellsBelow table.now × (at + 38 ≤ length out.old)))) }
    ensures { PointWritten table.now finals states n at work.now out.old out.new result }
{
    if !is_shadow(work, n) {
        return at;
    }
    let a = symbol_at(work, n);
    let before = before_set(work, n);
    let classes = class_count(work, n, states);
    let nop = is_nop(work, table, finals, n, a, before);
    let enabled = is_enabled(work, n);
    write_shadow_line(
        out,
        at,
        n as u64,
        a as u64,
        u64::from(before),
        u64::from(classes),
        u64::from(nop),
        u64::from(enabled),
    );
    at + 38
}
