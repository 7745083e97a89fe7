// The script of reader calls that `test_drive` makes, made on a session record by the entry: for hosts in other
// languages that test and measure the gate. It is not part of the product's interface.
#![tactic(auto)]

ghost use Rattle.test_drive.specs.Drive.{Drives};

use entry::offer_in_place;
use gate::Answer;
use header::Side;
use session::Session;
use test_drive::{Caller, drive};

struct ByEntry;

impl Caller for ByEntry {
    fn call(s: &mut Session, from: Side, hold: &mut [u8], piece: &[u8]) -> Answer {
        offer_in_place(s, from, hold, piece)
    }
}

// The script, the holding buffers, the records and the watch are those of `test_drive`.
#[unsafe(no_mangle)]
pub extern "C" fn drive_by_entry(script: &[u8], holds: &mut [u8], out: &mut [u8]) -> usize
    ensures { Drives script.now holds.old out.old holds.new out.new result }
{
    drive::<ByEntry>(script, holds, out)
}
