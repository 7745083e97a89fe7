// The calls of `test_drive` for a host in C, under the name that C has for them.
#![tactic(auto)]

ghost use Rattle.test_drive.specs.Drive.{Drives};

#[unsafe(no_mangle)]
pub extern "C" fn test_drive(script: &[u8], holds: &mut [u8], out: &mut [u8]) -> usize
    ensures { Drives script.now holds.old out.old holds.new out.new result }
{
    test_drive::test_drive(script, holds, out)
}
