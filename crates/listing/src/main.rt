// Lists the recipe on standard input, for grey levels.
#![tactic(auto)]

use report::listing::Listing;
use std::io;
use std::io::Read;

fn main(rt: HostRuntime) -> io::Result<()> {
    let mut bytes = Vec::new(rt.alloc());
    rt.stdin().read_to_end(&mut bytes)?;
    // Grey levels are ranked.
    let listing = Listing::new(bytes.as_slice(), true);
    println!(rt; "{listing}")
}
