// The script of reader calls that `test_drive` makes, made with the session by value, through `gate::offer`: for hosts
// in other languages that test the gate. It is not part of the product's interface.
#![tactic(auto)]

ghost use Rattle.test_drive.specs.Drive.{Drives};

use gate::{Answer, offer};
use header::Side;
use session::Session;
use test_drive::{Caller, drive};

struct ByValue;

impl Caller for ByValue {
    fn call(s: &mut Session, from: Side, hold: &mut [u8], piece: &[u8]) -> Answer {
        let o = offer(*s, from, hold, piece);
        *s = o.session;
        o.answer
    }
}

// The script, the holding buffers, the records and the watch are those of `test_drive`.
#[unsafe(no_mangle)]
pub extern "C" fn test_drive_by_value(script: &[u8], holds: &mut [u8], out: &mut [u8]) -> usize
    ensures { Drives script.now holds.old out.old holds.new out.new result }
{
    drive::<ByValue>(script, holds, out)
}
