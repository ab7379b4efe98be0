// Clearing the work buffer, and the parts of it that the searches use.
#![tactic(auto)]

ghost use Rattle.std.specs.Prelude.{◌≡◌, ◌≤◌, length};
ghost use Rattle.buffer.specs.Layout.{pair_part, class_part, found_part, marks_part, marks_end, Lent};
ghost use Rattle.buffer.specs.Buffer.{cleared};
ghost use Rattle.buffer.specs.Kept.{Zeroed};

use buffer::{CLASSES, FOUND, MARKS, MARKS_END, NODES, PAIRS, WORK};

// Makes the bytes from `from` up to `to` zero.
fn clear_part(work: &mut [u8], from: usize, to: usize)
    requires { (to ≤ length work.old) × (from ≤ to) }
    ensures { Zeroed work.old work.new from to }
{
    work[from..to].fill(0);
}

// Empties the rows of pairs.
pub fn clear_pairs(work: &mut [u8])
    requires { Lent work.old }
    ensures { Zeroed work.old work.new pair_part class_part }
{
    clear_part(work, PAIRS, CLASSES);
}

// Takes down all marks.
pub fn clear_marks(work: &mut [u8])
    requires { Lent work.old }
    ensures { Zeroed work.old work.new marks_part marks_end }
{
    clear_part(work, MARKS, MARKS_END);
}

// Empties the class rows.
pub fn clear_classes(work: &mut [u8])
    requires { Lent work.old }
    ensures { Zeroed work.old work.new class_part found_part }
{
    clear_part(work, CLASSES, FOUND);
}

// Makes the first 65,536 bytes zero and leaves the rest.
pub fn clear(work: &mut [u8])
    requires { Lent work.old }
    ensures { work.new ≡ cleared work.old }
{
    clear_part(work, NODES, WORK);
}
