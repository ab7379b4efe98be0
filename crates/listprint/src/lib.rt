// What the listing program prints for a job file: the listing, or the X line of a refusal.
#![tactic(auto)]

ghost use Rattle.std.specs.Prelude.{◌≡◌, false, ◌≤◌, length};
ghost use Rattle.std.proofs.lemmas.List.Edits.{sets};
ghost use Rattle.buffer.specs.Layout.{Lent};
ghost use Rattle.jobfile.specs.ListingLines.{printed_for};
ghost use Rattle.admission.specs.Admission.{admitted, work_after};

use listcall::list_job;
use listwriter::write_refusal_line;

// Writes what is printed for the file from the start of `out` on: its length.
pub fn print_job(file: &[u8], work: &mut [u8], out: &mut [u8]) -> usize
    requires { (Lent work.old) × (32768 ≤ length out.old) }
    ensures { (result ≡ length (printed_for (admitted file.now false))) × (result ≤ length out.new)
        × (out.new ≡ sets out.old 0 (printed_for (admitted file.now false)))
        × (work.new ≡ work_after (admitted file.now false) work.old) }
{
    let listed = list_job(file, work, out);
    match listed {
        Ok(length) => length,
        Err(refusal) => {
            write_refusal_line(out, 0, u64::from(refusal));
            8
        }
    }
}
