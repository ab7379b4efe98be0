// The price file: its prices, read into sixteen lent ones, and the answer where it is none.
#![tactic(auto)]

ghost use Rattle.std.specs.Prelude.{◌≡◌};
ghost use Rattle.reasons.specs.Reasons.{said_by};
ghost use Rattle.pricelist.specs.Inner.{SixteenFit, PricesRead};
ghost use Rattle.pricelist.specs.PriceList.{unlisted};

use numberedline::numbered_line;
use reasons::Reason;
use refusal::Refusal;

// Reads the prices of a price file, cents per thousand events of each symbol: whether it is exactly its sixteen B lines.
pub fn read_prices(file: &[u8], prices: &mut [u64]) -> bool
    requires { SixteenFit prices.old }
    ensures { PricesRead file.now prices.new result }
{
    if file.len() != 224 {
        return false;
    }
    for s in 0..16 {
        let Some(price) = numbered_line(file, s * 14, 66, s as u64, 9999) else {
            return false;
        };
        prices[s] = price;
    }
    true
}

// The answer where the price file is not its lines: 28 in place of a price.
pub fn without_prices<E: Reason>(price: Result<u64, E>) -> Result<u64, E>
    ensures { said_by E.number result ≡ unlisted (said_by E.number price) }
{
    match price {
        Ok(_) => Err(E::of(Refusal::WrongPrices)),
        Err(refusal) => Err(refusal),
    }
}
