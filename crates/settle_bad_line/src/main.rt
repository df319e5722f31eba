// `settle` on a file with a refused call and then a line out of form, a kind that stands too late.
#![tactic(auto)]

use std::io;

// Kept: `rt ci` runs a program on one stored input, so each input that is tried has a program of its own.
fn main(rt: HostRuntime) -> io::Result<()> {
    settle_run::run(&rt, &mut rt.stdin(), &mut rt.stdout())
}
