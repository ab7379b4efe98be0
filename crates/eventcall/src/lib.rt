// The event step on bytes: the rule is 256 bytes in row order, the record its numbers one after the other.
#![tactic(auto)]

ghost use Rattle.std.specs.Prelude.{◌≡◌};
ghost use Rattle.events.specs.Monitor.{report_number};
ghost use Rattle.events.specs.Answer.{step_of};
ghost use Rattle.eventbytes.specs.Event.{event_taken, record_left};

use callnumber::ACCEPTED;
use events::{Report, Taken};
use refusal::Refusal;

// What the call returns for a quiet event, and for an alarm.
const QUIET: u64 = ACCEPTED;

const ALARM: u64 = ACCEPTED + 1;

// What an event call on these bytes reports and leaves.
fn take(rule: &[u8], states: u64, symbols: u64, finals: u64, symbol: u64, rec: &[u8]) -> Taken
    ensures { step_of result ≡ event_taken rule.now states symbols finals symbol rec.now }
{
    let r = recordbytes::read_record(rec);
    if rule.len() == 256 {
        let table = ruletable::table_of(rule);
        return lent::take_event_on(table, states, symbols, finals, symbol, r);
    }
    Taken {
        left: r,
        report: Err(Refusal::WrongRule),
    }
}

// Takes one event on the record's bytes and returns 2^48 for quiet, 2^48 + 1 for alarm, or the refusal's number.
pub fn event(
    rule: &[u8],
    states: u64,
    symbols: u64,
    finals: u64,
    symbol: u64,
    rec: &mut [u8],
) -> u64
    ensures { (result ≡ report_number (event_taken rule.now states symbols finals symbol rec.old).report)
        × (rec.new ≡ record_left rec.old (event_taken rule.now states symbols finals symbol rec.old)) }
{
    let taken = take(rule, states, symbols, finals, symbol, rec);
    match taken.report {
        Ok(report) => {
            recordbytes::write_record(rec, taken.left);
            match report {
                Report::Quiet => QUIET,
                Report::Alarm => ALARM,
            }
        }
        Err(refusal) => u64::from(refusal),
    }
}
