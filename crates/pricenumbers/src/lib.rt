// The number that a C call returns for each answer of pricing.
#![tactic(auto)]

ghost use Rattle.std.specs.Prelude.{◌≡◌};
ghost use Rattle.reasons.specs.Reasons.{said_by};
ghost use Rattle.pricing.specs.Pricing.{price_number};
ghost use Rattle.pricing.specs.Inner.{CentsFit};

use callnumber::ACCEPTED;
use reasons::Reason;

// 2^48 plus the cents, or the refusal's number.
pub fn of_price<E: Reason>(price: Result<u64, E>) -> u64
    requires { CentsFit (said_by E.number price) }
    ensures { result ≡ price_number (said_by E.number price) }
{
    match price {
        Ok(cents) => ACCEPTED + cents,
        Err(refusal) => refusal.number(),
    }
}
