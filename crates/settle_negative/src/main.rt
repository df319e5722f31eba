// `settle` on document 01's case 4, with a negative volume, and no end to the last line.
#![tactic(auto)]

use std::io;

// Kept: `rt ci` runs a program on one stored input, so each input that is tried has a program of its own.
fn main(rt: HostRuntime) -> io::Result<()> {
    settle_run::run(&rt, &mut rt.stdin(), &mut rt.stdout())
}
