// The number that a C call returns for each answer of planning and of listing.
#![tactic(auto)]

ghost use Rattle.std.specs.Prelude.{◌≡◌};
ghost use Rattle.reasons.specs.Reasons.{said_by};
ghost use Rattle.planoutcome.specs.PlanCall.{plan_number};
ghost use Rattle.listoutcome.specs.ListCall.{list_number};
ghost use Rattle.answernumbers.specs.Fits.{OutcomeFits, ListedFits};

use callnumber::ACCEPTED;
use passes::passes::Counts;
use reasons::Reason;

// 2^48 plus event nodes times 2^32, watched points times 2^16, and passes, or the refusal's number.
pub fn of_outcome<E: Reason>(outcome: Result<Counts, E>) -> u64
    requires { OutcomeFits (said_by E.number outcome) }
    ensures { result ≡ plan_number (said_by E.number outcome) }
{
    match outcome {
        Ok(counts) => {
            ACCEPTED
                + counts.shadows as u64 * 4_294_967_296
                + counts.enabled as u64 * 65_536
                + counts.passes as u64
        }
        Err(unplanned) => unplanned.number(),
    }
}

// 2^48 plus the length of the listing, or the refusal's number.
pub fn of_listed<E: Reason>(listed: Result<usize, E>) -> u64
    requires { ListedFits (said_by E.number listed) }
    ensures { result ≡ list_number (said_by E.number listed) }
{
    match listed {
        Ok(length) => ACCEPTED + length as u64,
        Err(unlisted) => unlisted.number(),
    }
}
