// The house prices of journal lines, and cents.
#![tactic(auto)]

ghost use Rattle.std.specs.Prelude.{◌≡◌, ◌^◌, ◌<◌};
ghost use Rattle.pricing.specs.Pricing.{house_prices, cents_of};

// Cents per thousand events of each symbol: 20 + 5 s for symbol s.
const HOUSE: [u64; 16] = [
    20, 25, 30, 35, 40, 45, 50, 55, 60, 65, 70, 75, 80, 85, 90, 95,
];

// The house prices.
pub fn house_prices() -> [u64; 16]
    ensures { result ≡ house_prices }
{
    HOUSE
}

// So many thousandths of a cent in cents, a part of a cent counted as a cent.
pub fn cents(thousandths: u64) -> u64
    requires { thousandths < 2 ^ 48 }
    ensures { result ≡ cents_of thousandths }
{
    (thousandths + 999) / 1000
}
