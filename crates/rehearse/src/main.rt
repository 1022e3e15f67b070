// Rehearses the script on standard input: a carton's frame smoothed, where nothing else is given.
#![tactic(auto)]

use std::io;

fn main(rt: HostRuntime) -> io::Result<()> {
    rehearsal::rehearse(&rt)
}
