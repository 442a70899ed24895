// `listing` reads a sheet from standard input and writes its text, which `assembly` makes, to standard output; or `refused`, the number
// and the place to standard error.
#![tactic(auto)]

use std::io;

fn main(rt: HostRuntime) -> io::Result<()> {
    // one byte more than a sheet may have: a longer one has a 4,097th command, or a fault before it
    let mut sheet = [0u8; 36865];
    let count = input::read_full(&mut rt.stdin(), &mut sheet)?;
    let mut text = [0u8; 106496];
    match assembly::list(&sheet[..count], &mut text) {
        Ok(n) => rt.write_all(word::part::first(&text, n)),
        Err(r) => eprintln!(rt; "{r}"),
    }
}
