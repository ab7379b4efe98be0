// The event step on values: one event moves the state, and alarms when the state moved to is final.
#![tactic(auto)]

ghost use Rattle.std.specs.Prelude.{◌≡◌};
ghost use Rattle.automaton.specs.Automaton.{automaton_of};
ghost use Rattle.events.specs.Monitor.{refused_with, taken};
ghost use Rattle.events.specs.Answer.{step_of};
ghost use Rattle.refusal.specs.Refusal.{number_of};

use events::{Record, Report, Taken};
use raising::raise;
use refusal::Refusal;

// The record as it was, with the reason for which the event is turned back.
fn refuse(refusal: Refusal, r: Record) -> Taken
    ensures { step_of result ≡ refused_with (number_of refusal) r }
{
    Taken {
        left: r,
        report: Err(refusal),
    }
}

// Takes one event: the state moves on, and the total rises at an alarm. A refusal leaves the record.
pub fn step(
    table: [[u8; 16]; 16],
    states: u64,
    symbols: u64,
    finals: u64,
    symbol: u64,
    r: Record,
) -> Taken
    ensures { step_of result ≡ taken (automaton_of table states symbols finals) symbol r }
{
    if !wellformed::is_well_formed(table, states, symbols, finals) {
        return refuse(Refusal::WrongRule, r);
    }
    if symbols <= symbol {
        return refuse(Refusal::NoSymbol, r);
    }
    if states <= r.state {
        return refuse(Refusal::NoState, r);
    }
    let moved = automaton::rule::next(&table, r.state, symbol);
    if automaton::rule::is_final(finals, moved) {
        return Taken {
            left: Record {
                state: moved,
                alarms: raise(r.alarms),
            },
            report: Ok(Report::Alarm),
        };
    }
    Taken {
        left: Record {
            state: moved,
            alarms: r.alarms,
        },
        report: Ok(Report::Quiet),
    }
}
