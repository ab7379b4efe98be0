// The record of a running monitor as bytes: read, and written.
#![tactic(auto)]

ghost use Rattle.std.specs.Prelude.{◌≡◌, length};
ghost use Rattle.eventbytes.specs.Event.{record_size, record_in, record_bytes};

use events::Record;

// Where the numbers of a record stand in its bytes, each after the one before it, and how many bytes it has.
const STATE_PLACE: usize = 0;

const TOTAL_PLACE: usize = STATE_PLACE + 8;

const RECORD_SIZE: usize = TOTAL_PLACE + 8;

// The record that these bytes spell, or one in a state that no rule has where they are none.
pub fn read_record(rec: &[u8]) -> Record
    ensures { result ≡ record_in rec.now }
{
    if rec.len() == RECORD_SIZE {
        return Record {
            state: loads::read64(rec, STATE_PLACE),
            alarms: loads::read64(rec, TOTAL_PLACE),
        };
    }
    Record {
        state: 18_446_744_073_709_551_615,
        alarms: 0,
    }
}

// Writes a record to its bytes.
pub fn write_record(rec: &mut [u8], r: Record)
    requires { length rec.old ≡ record_size }
    ensures { rec.new ≡ record_bytes r }
{
    stores::write64(rec, STATE_PLACE, r.state);
    stores::write64(rec, TOTAL_PLACE, r.alarms);
}
