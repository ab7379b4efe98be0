// The number that a C call returns for each answer of the calls on edges.
#![tactic(auto)]

ghost use Rattle.std.specs.Prelude.{◌≡◌};
ghost use Rattle.reasons.specs.Reasons.{said_by};
ghost use Rattle.arrivals.specs.Arrivals.{edge_number};
ghost use Rattle.edgenumbers.specs.Fits.{EdgesFit};

use callnumber::ACCEPTED;
use reasons::Reason;

// 2^48 plus the count, or the refusal's number.
pub fn of_edges<E: Reason>(answer: Result<u64, E>) -> u64
    requires { EdgesFit (said_by E.number answer) }
    ensures { result ≡ edge_number (said_by E.number answer) }
{
    match answer {
        Ok(count) => ACCEPTED + count,
        Err(refusal) => refusal.number(),
    }
}
