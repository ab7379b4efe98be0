// The place of an edge among edges that ascend, and of a number among numbers that do, found by halving.
#![tactic(auto)]

ghost use Rattle.std.specs.Prelude.{◌*◌, ◌≤◌, ltb, length, get_or};
ghost use Rattle.job.specs.Job.{edge};
ghost use Rattle.arrivals.specs.Arrivals.{edge_at, is_before};
ghost use Rattle.arrivals.specs.Shifts.{Downward, Cut};

// The place of the first edge that is not before the one from a node to another.
pub fn edge_place(edges: &[u16], count: usize, from: u16, to: u16) -> usize
    requires { (2 * count ≤ length edges.now) × Downward (λ i. is_before (edge_at edges.now i) (edge from to)) 0 count }
    ensures { Cut (λ i. is_before (edge_at edges.now i) (edge from to)) 0 count result }
{
    let (pairs, _) = edges.as_chunks::<2>();
    pairs[..count].partition_point(|[start, end]| *start < from || (*start == from && *end < to))
}

// The first place, from `first` to before `last`, of a number that is not below the one given; `last` where there is none.
pub fn number_place(list: &[u16], first: usize, last: usize, number: u16) -> usize
    requires { (first ≤ last) × (last ≤ length list.now) × Downward (λ i. ltb (get_or list.now i 0) number) first last }
    ensures { Cut (λ i. ltb (get_or list.now i 0) number) first last result }
{
    first + list[first..last].partition_point(|x| *x < number)
}
