// Rehearsals: a script read from standard input, and the answers to its lines printed.
#![tactic(auto)]

mod printer;

use crate::printer::Printer;
use std::io;
use std::io::{BufRead, BufReader};
use transcripts::session;

// Reads a script from standard input, one call a line, and prints the answers.
pub fn rehearse(rt: &HostRuntime) -> io::Result<()> {
    let mut lines = Vec::new(rt.alloc());
    for line in BufReader::new(rt.alloc(), rt.stdin())?.split(rt.alloc(), b'\n') {
        lines.push(line?)?;
    }
    session::serve(rt.alloc(), &lines, &mut Printer { rt })
}
