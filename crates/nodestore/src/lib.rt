// A node of the job in its place of the work buffer.
#![tactic(auto)]

ghost use Rattle.std.specs.Prelude.{◌<◌};
ghost use Rattle.jobfile.specs.File.{node_of};
ghost use Rattle.buffer.specs.Layout.{Lent};
ghost use Rattle.jobhead.specs.Stored.{NodeFits, NodeStored};

use stores::write16;

// Stores a node.
pub fn store_node(work: &mut [u8], n: usize, numbers: &[u64; 6])
    requires { (n < 512) × ((Lent work.old) × (NodeFits numbers.now)) }
    ensures { NodeStored work.old work.new n (node_of numbers.now) }
{
    let kind = numbers[1];
    let value = numbers[2];
    let entries = numbers[3];
    let exits = numbers[4];
    let after = numbers[5];
    let at = n * 8;
    write16(work, at, value as u16);
    write16(work, at + 2, entries as u16);
    write16(work, at + 4, after as u16);
    work[at + 6] = kind as u8;
    work[at + 7] = exits as u8;
}
