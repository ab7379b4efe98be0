// The number that a C call returns for each answer of the plan check.
#![tactic(auto)]

ghost use Rattle.std.specs.Prelude.{◌≡◌};
ghost use Rattle.reasons.specs.Reasons.{said_by};
ghost use Rattle.checking.specs.Checking.{verdict_number};

use callnumber::ACCEPTED;
use checking::check::Verdict;
use reasons::Reason;

// 2^48 for faithful, 2^48 + 1 for different, or the refusal's number.
pub fn of_verdict<E: Reason>(answer: Result<Verdict, E>) -> u64
    ensures { result ≡ verdict_number (said_by E.number answer) }
{
    match answer {
        Ok(Verdict::Faithful) => ACCEPTED,
        Ok(Verdict::Different) => ACCEPTED + 1,
        Err(refusal) => refusal.number(),
    }
}
