// Listing on bytes: a job file, a work buffer of 65,536 bytes or more, and a listing buffer of 32,768 or more.
ghost use Rattle.std.specs.Prelude.{◌≡◌, length};
ghost use Rattle.admission.specs.Admission.{work_after};
ghost use Rattle.listoutcome.specs.ListCall.{list_answer, listed_of, listing_after, list_number};

// Lists a job and returns 2^48 plus the length of the listing, or the refusal's number, which leaves the listing buffer; the work buffer is
// cleared unless that is 1 or 2.
#[unsafe(no_mangle)]
pub extern "C" fn dapohiru_list(job: &[u8], work: &mut [u8], listing: &mut [u8]) -> u64
    ensures { (result ≡ list_number (listed_of (list_answer job.now (length work.old) (length listing.old))))
        × (work.new ≡ work_after (list_answer job.now (length work.old) (length listing.old)) work.old)
        × (listing.new ≡ listing_after (list_answer job.now (length work.old) (length listing.old)) listing.old) }
{
    dapohiru::list::dapohiru_list(job, work, listing)
}
