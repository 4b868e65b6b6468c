// The floor rehearsal: a script on standard input, its results on standard output. Standard input is read piece by piece, so a script
// can have any length. What a piece prints, and what the end prints, is script_feed's.
#![tactic(auto)]

ghost use Rattle.std.specs.Prelude.{◌≡◌, ◌+◌, ◌*◌, ◌≤◌, length};

use std::io::{Read, Result};

// Feeds each piece and writes what it prints, and then the end. An error of reading is the end, and after a bad set-up nothing more is read. A
// proved loop has to end, and nothing says that standard input does: so it has a number of turns that no run uses up.
fn run(rt: &(impl Input + Print), input: &mut [u8], out: &mut [u8]) -> Result<()>
    requires { 32 * length input.old + 128 ≤ length out.old }
{
    let mut from = rt.reader();
    let mut state = script_feed::start();
    for _ in 0..u64::MAX {
        let n = from.read(input).unwrap_or(0);
        if n == 0 {
            break;
        }
        let fed = script_feed::feed(state, &input[..n], out);
        rt.write_all(&out[..fed.len])?;
        state = fed.state;
        if script_feed::has_ended(&state) {
            break;
        }
    }
    let len = script_feed::finish(state, out);
    rt.write_all(&out[..len])
}

// Room for what 16384 octets print at most.
fn room() -> [u8; 524416]
    ensures { 524416 ≡ length result }
{
    [0; 524416]
}

fn main(rt: HostRuntime) -> Result<()> {
    let mut input = [0u8; 16384];
    let mut out = room();
    run(&rt, &mut input, &mut out)
}
