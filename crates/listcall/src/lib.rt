// Listing as a call: the W and T lines in the lent listing buffer, and their length.
#![tactic(auto)]

ghost use Rattle.std.specs.Prelude.{◌≡◌, length};
ghost use Rattle.refusal.specs.Refusal.{said};
ghost use Rattle.admission.specs.Admission.{work_after};
ghost use Rattle.listoutcome.specs.ListCall.{list_answer, listed_of, listing_after};

use clearing::clear;
use door::admit;
use listheld::list_held;
use refusal::Refusal;

// The smallest listing buffer.
pub const ROOM: usize = 32768;

// Lists a job. A refusal leaves the listing buffer; the work buffer is cleared unless the answer is refusal 1 or 2.
pub fn list_job(file: &[u8], work: &mut [u8], listing: &mut [u8]) -> Result<usize, Refusal>
    ensures { (said result ≡ listed_of (list_answer file.now (length work.old) (length listing.old)))
        × (work.new ≡ work_after (list_answer file.now (length work.old) (length listing.old)) work.old)
        × (listing.new ≡ listing_after (list_answer file.now (length work.old) (length listing.old)) listing.old) }
{
    let head = admit(file, work, listing.len() < ROOM)?;
    let length = list_held(
        work,
        listing,
        head.finals as u16,
        head.states as usize,
        head.nodes as usize,
    );
    clear(work);
    Ok(length)
}
