// Rehearses a script of worked examples and refusals, which tests the cell through its text.
#![tactic(auto)]

use std::io;

fn main(rt: HostRuntime) -> io::Result<()> {
    rehearsal::rehearse(&rt)
}
