// The event step on bytes: the rule is 256 bytes in row order, the record 16.
ghost use Rattle.std.specs.Prelude.{◌≡◌};
ghost use Rattle.events.specs.Monitor.{report_number};
ghost use Rattle.eventbytes.specs.Event.{event_taken, record_left};

// Takes one event on the record's 16 bytes and returns 2^48 for quiet, 2^48 + 1 for alarm, or the refusal's number.
#[unsafe(no_mangle)]
pub extern "C" fn dapohiru_event(
    rule: &[u8],
    states: u64,
    symbols: u64,
    finals: u64,
    symbol: u64,
    rec: &mut [u8],
) -> u64
    ensures { (result ≡ report_number (event_taken rule.now states symbols finals symbol rec.old).report)
        × (rec.new ≡ record_left rec.old (event_taken rule.now states symbols finals symbol rec.old)) }
{
    dapohiru::event::dapohiru_event(rule, states, symbols, finals, symbol, rec)
}
