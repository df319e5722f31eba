// Settles one half hour: reads a period file from standard input and prints the volumes.
#![tactic(auto)]

use std::io;

// Kept: `rt ci` runs a program on one stored input, so each input that is tried has a program of its own.
fn main(rt: HostRuntime) -> io::Result<()> {
    settle_run::run(&rt, &mut rt.stdin(), &mut rt.stdout())
}
