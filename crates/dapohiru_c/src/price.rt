// Pricing on bytes: a job file, a plan of one byte a node, a volume file and, in the second call, a price file.
ghost use Rattle.std.specs.Prelude.{◌≡◌};
ghost use Rattle.pricing.specs.Pricing.{priced, price_number};
ghost use Rattle.pricelist.specs.PriceList.{priced_by};

// Prices a plan and returns 2^48 plus the cents, or the refusal's number. The job is held on the stack.
#[unsafe(no_mangle)]
pub extern "C" fn dapohiru_price(job: &[u8], plan: &[u8], volumes: &[u8]) -> u64
    ensures { result ≡ price_number (priced job.now plan.now volumes.now) }
{
    dapohiru::price::dapohiru_price(job, plan, volumes)
}

// Prices a plan at the prices of a price file and returns 2^48 plus the cents, or the refusal's number. The job is held on the stack.
#[unsafe(no_mangle)]
pub extern "C" fn dapohiru_price_by(job: &[u8], plan: &[u8], volumes: &[u8], prices: &[u8]) -> u64
    ensures { result ≡ price_number (priced_by job.now plan.now volumes.now prices.now) }
{
    dapohiru::price::dapohiru_price_by(job, plan, volumes, prices)
}
