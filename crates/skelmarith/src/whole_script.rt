// A whole script in a slice.
ghost use Rattle.std.specs.Prelude.{◌≡◌};
ghost use Rattle.script_runner.specs.Played.{rehearsed_into};
ghost use Rattle.skelmarith.specs.Packets.{rehearsed_in};

use crate::packets::Written;

// A whole script, printed at the front of out, whose rest stays: 10 where out is too short for its output, and then all of it stays.
#[unsafe(no_mangle)]
pub extern "C" fn skel_rehearse(script: &[u8], out: &mut [u8]) -> Written
    ensures { rehearsed_in result out.new ≡ rehearsed_into script.now out.old }
{
    Written::from(script_runner::rehearse(script, out))
}
