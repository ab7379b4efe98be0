// The before sets in the work buffer, read and stored.
#![tactic(auto)]

ghost use Rattle.std.specs.Prelude.{◌≡◌, ◌<◌, ◌≤◌};
ghost use Rattle.buffer.specs.Layout.{Lent};
ghost use Rattle.buffer.specs.Views.{before_in};
ghost use Rattle.found.specs.FoundHeld.{BeforeStored};

use buffer::FOUND;
use loads::read16;
use points::held_states;
use stores::write16;

// The before set of node n.
pub fn before_set(work: &[u8], n: usize) -> u16
    requires { (Lent work.now) × (n < 512) }
    ensures { result ≡ before_in work.now n }
{
    read16(work, FOUND + n * 4)
}

// Stores for each node the states whose rows hold pairs.
pub fn store_before(work: &mut [u8], states: usize, nodes: usize)
    requires { (Lent work.old) × ((states ≤ 16) × (nodes ≤ 512)) }
    ensures { BeforeStored work.old work.new states nodes }
{
    for n in 0..nodes {
        let states_held = held_states(work, n, states);
        write16(work, FOUND + n * 4, states_held);
    }
}
