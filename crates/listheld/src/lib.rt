// The listing of the job that the work buffer holds, written to the listing buffer.
#![tactic(auto)]

ghost use Rattle.std.specs.Prelude.{◌≤◌, length};
ghost use Rattle.buffer.specs.Views.{rule_rows_in};
ghost use Rattle.tables.specs.Held.{Usable};
ghost use Rattle.listheld.specs.Held.{SomeJob, ListedHeld};

use analysis::find;
use listlines::write_listing;
use rulereads::table_in;

// Lists the job that the work buffer holds.
pub fn list_held(
    work: &mut [u8],
    listing: &mut [u8],
    finals: u16,
    states: usize,
    nodes: usize,
) -> usize
    requires { (1 ≤ nodes) × ((32768 ≤ length listing.old) × (Usable work.old (rule_rows_in work.old) states nodes
        × SomeJob work.old (rule_rows_in work.old) finals states nodes)) }
    ensures { ListedHeld (rule_rows_in work.old) finals states nodes work.old work.new listing.old listing.new result }
{
    let table = table_in(work);
    let counts = find(work, &table, finals, states, nodes);
    write_listing(work, &table, listing, finals, states, nodes, counts)
}
