// The journal price of a plan: a job file, a plan, a volume file and, in the second call, a price file in; cents or a refusal out.
#![tactic(auto)]

ghost use Rattle.std.specs.Prelude.{◌≡◌};
ghost use Rattle.refusal.specs.Refusal.{said};
ghost use Rattle.pricing.specs.Inner.{PricesFit};
ghost use Rattle.pricing.specs.Pricing.{priced_at, priced};
ghost use Rattle.pricelist.specs.PriceList.{priced_by};

use buffer::WORK;
use door::admit;
use priceheld::bill;
use pricereader::{read_prices, without_prices};
use refusal::Refusal;
use tariff::house_prices;

// Prices a plan at these prices. The job is held in a buffer on the stack.
fn price_at(file: &[u8], plan: &[u8], volumes: &[u8], prices: &[u64; 16]) -> Result<u64, Refusal>
    requires { PricesFit prices.now }
    ensures { said result ≡ priced_at prices.now file.now plan.now volumes.now }
{
    let mut work = [0u8; WORK];
    let head = admit(file, &mut work, false)?;
    bill(plan, volumes, &work, head.nodes as usize, prices)
}

// Prices a plan at the house prices.
pub fn price_plan(file: &[u8], plan: &[u8], volumes: &[u8]) -> Result<u64, Refusal>
    ensures { said result ≡ priced file.now plan.now volumes.now }
{
    let prices = house_prices();
    price_at(file, plan, volumes, &prices)
}

// Prices a plan at the prices of a price file.
pub fn price_plan_by(
    file: &[u8],
    plan: &[u8],
    volumes: &[u8],
    prices: &[u8],
) -> Result<u64, Refusal>
    ensures { said result ≡ priced_by file.now plan.now volumes.now prices.now }
{
    let mut list = [0u64; 16];
    let listed = read_prices(prices, &mut list);
    let price = price_at(file, plan, volumes, &list);
    if listed {
        return price;
    }
    without_prices(price)
}
