// Nodes as the work buffer holds them: what each reports, its words and its sets.
#![tactic(auto)]

ghost use Rattle.std.specs.Prelude.{◌≡◌, cond, ℕ, ◌+◌, ◌*◌, ◌%◌, ◌≤◌, ◌<◌, get_or};
ghost use Rattle.laws.specs.Bounded.{any_below};
ghost use Rattle.job.specs.Job.{point, point_of, call_set, is_event, is_reentrant, is_entry};
ghost use Rattle.buffer.specs.Layout.{Lent};
ghost use Rattle.buffer.specs.Views.{node_in};

use loads::read16;

// The number of the kind of node n.
fn kind_at(work: &[u8], n: usize) -> u8
    requires { (Lent work.now) × (n < 512) }
    ensures { result ≡ get_or work.now (n * 8 + 6) 0 }
{
    work[n * 8 + 6]
}

// Whether node n is a shadow.
pub fn is_shadow(work: &[u8], n: usize) -> bool
    requires { (Lent work.now) × (n < 512) }
    ensures { result ≡ is_event (node_in work.now n).kind }
{
    kind_at(work, n) == 1
}

// The symbol of a shadow, as a number below 16; free at any other node.
pub fn symbol_at(work: &[u8], n: usize) -> usize
    requires { (Lent work.now) × (n < 512) }
    ensures { (result < 16) × ((a : ℕ) → point_of (node_in work.now n).kind ≡ point a → result ≡ a % 16) }
{
    (read16(work, n * 8) as usize) % 16
}

// The symbols of a call; none at any other node.
pub fn call_set(work: &[u8], n: usize) -> u16
    requires { (Lent work.now) × (n < 512) }
    ensures { result ≡ call_set (node_in work.now n).kind }
{
    if kind_at(work, n) < 2 {
        return 0;
    }
    read16(work, n * 8)
}

// Whether node n is a call that may come back in.
pub fn is_reentrant(work: &[u8], n: usize) -> bool
    requires { (Lent work.now) × (n < 512) }
    ensures { result ≡ is_reentrant (node_in work.now n).kind }
{
    kind_at(work, n) > 2
}

// The admitted start states of node n.
pub fn entry_set(work: &[u8], n: usize) -> u16
    requires { (Lent work.now) × (n < 512) }
    ensures { result ≡ (node_in work.now n).entry }
{
    read16(work, n * 8 + 2)
}

// Whether node n is an entry.
pub fn is_entry(work: &[u8], n: usize) -> bool
    requires { (Lent work.now) × (n < 512) }
    ensures { result ≡ is_entry (node_in work.now n) }
{
    entry_set(work, n) != 0
}

// Whether node n is an exit.
pub fn is_exit(work: &[u8], n: usize) -> bool
    requires { (Lent work.now) × (n < 512) }
    ensures { result ≡ (node_in work.now n).exit }
{
    work[n * 8 + 7] == 1
}

// The symbols of the word after an exit; none at any other node.
pub fn after_set(work: &[u8], n: usize) -> u16
    requires { (Lent work.now) × (n < 512) }
    ensures { result ≡ cond (node_in work.now n).exit (node_in work.now n).after 0 }
{
    if work[n * 8 + 7] != 1 {
        return 0;
    }
    read16(work, n * 8 + 4)
}

// Whether some node is a call that may come back in.
pub fn any_reentrant(work: &[u8], nodes: usize) -> bool
    requires { (Lent work.now) × (nodes ≤ 512) }
    ensures { result ≡ any_below nodes (λ n. is_reentrant (node_in work.now n).kind) }
{
    for n in 0..nodes {
        if is_reentrant(work, n) {
            return true;
        }
    }
    false
}
