// Numbers put into a list and taken out of it, and the starts after a node moved by one.
#![tactic(auto)]

ghost use Rattle.std.specs.Prelude.{◌≡◌, ℕ, ◌+◌, ◌≤◌, ◌<◌, length, get_or};
ghost use Rattle.arrivals.specs.Shifts.{opened, closed, raised, lowered};

// Puts numbers in at a place of a list that ends before `end`.
pub fn open_at(list: &mut [u16], at: usize, end: usize, numbers: &[u16])
    requires { (at ≤ end) × (end + length numbers.now ≤ length list.old) }
    ensures { list.new ≡ opened at end numbers.now list.old }
{
    let past = at + numbers.len();
    list.copy_within(at..end, past);
    list[at..past].copy_from_slice(numbers);
}

// Takes the numbers at a place, `count` of them, out of a list that ends before `end`.
pub fn close_at(list: &mut [u16], at: usize, end: usize, count: usize)
    requires { (at + count ≤ end) × (end ≤ length list.old) }
    ensures { list.new ≡ closed at end count list.old }
{
    list.copy_within(at + count..end, at);
    list[end - count..end].fill(0);
}

// The starts of the nodes after node b, to the last, are one more.
pub fn raise_starts(starts: &mut [u16], b: usize, nodes: usize)
    requires { (b < nodes) × (nodes < length starts.old) × ((i : ℕ) → i ≤ nodes → get_or starts.old i 0 < 65535) }
    ensures { starts.new ≡ raised b nodes starts.old }
{
    for start in &mut starts[b + 1..=nodes] {
        *start += 1;
    }
}

// The starts of the nodes after node b, to the last, are one less.
pub fn lower_starts(starts: &mut [u16], b: usize, nodes: usize)
    requires { (b < nodes) × (nodes < length starts.old) × ((i : ℕ) → b < i → i ≤ nodes → 0 < get_or starts.old i 0) }
    ensures { starts.new ≡ lowered b nodes starts.old }
{
    for start in &mut starts[b + 1..=nodes] {
        *start -= 1;
    }
}
