// One record, lent to the call that takes an event and altered there.
#![tactic(auto)]

ghost use Rattle.std.specs.Prelude.{◌≡◌};
ghost use Rattle.automaton.specs.Automaton.{automaton_of};
ghost use Rattle.events.specs.Monitor.{reported, taken};
ghost use Rattle.events.specs.Answer.{step_of};
ghost use Rattle.refusal.specs.Refusal.{said};

use events::{Record, Report, Taken};
use refusal::Refusal;
use step::step;

// Takes one event on the lent record. A refusal leaves it as it was.
pub fn take_event(
    r: &mut Record,
    table: [[u8; 16]; 16],
    states: u64,
    symbols: u64,
    finals: u64,
    symbol: u64,
) -> Result<Report, Refusal>
    ensures { reported r.new (said result) ≡ taken (automaton_of table states symbols finals) symbol r.old }
{
    let taken = step(table, states, symbols, finals, symbol, *r);
    *r = taken.left;
    taken.report
}

// Lends a record to the call that takes an event, and gives it back with the report.
pub fn take_event_on(
    table: [[u8; 16]; 16],
    states: u64,
    symbols: u64,
    finals: u64,
    symbol: u64,
    r: Record,
) -> Taken
    ensures { step_of result ≡ taken (automaton_of table states symbols finals) symbol r }
{
    let mut held = r;
    let report = take_event(&mut held, table, states, symbols, finals, symbol);
    Taken { left: held, report }
}
