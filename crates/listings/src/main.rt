// Tells the listings of a table of recipes, one recipe a line: "ranked" or "unranked" levels, and its bytes in hexadecimal.
// A line that begins with # is told as it stands.
#![tactic(auto)]

ghost use Rattle.std.specs.Prelude.{ℕ, Bool, List, IfOk};
ghost use Rattle.report.specs.Listings.{Lists};

use report::listing::Listing;
use std::alloc::Global;
use std::io::{BufRead, BufReader};

fn main(rt: HostRuntime) -> anyhow::Result<()> {
    tell(&rt)
}

fn tell(rt: &HostRuntime) -> anyhow::Result<()> {
    for line in BufReader::new(rt.alloc(), rt.stdin())?.lines(rt.alloc()) {
        let row = line?;
        if row.as_str().starts_with('#') {
            println!(rt; "{row}")?;
        } else {
            let listing = listed(rt.alloc(), row.as_str())?;
            println!(rt; "{listing}")?;
        }
    }
    Ok(())
}

// The listing of a row's bytes.
fn listed(heap: Global, row: &str) -> anyhow::Result<Listing>
    ensures { IfOk result (λ l. (ranked : Bool) × (bytes : List ℕ) × Lists ranked bytes l) }
{
    let mut words = row.split_whitespace();
    let ranked = words.next() == Some("ranked");
    let mut bytes = Vec::new(heap);
    for word in words {
        bytes.push(u8::from_str_radix(word, 16)?)?;
    }
    Ok(Listing::new(bytes.as_slice(), ranked))
}
