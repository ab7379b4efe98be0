// The price of a plan, for the job that the work buffer holds.
#![tactic(auto)]

ghost use Rattle.pricing.specs.Inner.{BillFit, Billed};
ghost use Rattle.refusal.specs.Refusal.{said};

use daycost::day_cost;
use planmarks::is_plan;
use refusal::Refusal;
use tariff::cents;

// The answer for the job that the work buffer holds: 11, 12, 16, or the price in cents.
pub fn bill(
    plan: &[u8],
    volumes: &[u8],
    work: &[u8],
    nodes: usize,
    prices: &[u64; 16],
) -> Result<u64, Refusal>
    requires { BillFit work.now prices.now nodes }
    ensures { Billed prices.now work.now nodes plan.now volumes.now (said result) }
{
    if plan.len() != nodes {
        return Err(Refusal::WrongPlanLength);
    }
    if !is_plan(plan, work, nodes) {
        return Err(Refusal::WrongPlanByte);
    }
    let sum = day_cost(volumes, work, plan, nodes, prices)?;
    Ok(cents(sum))
}
