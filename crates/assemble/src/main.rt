// `assemble` reads a text from standard input and writes its sheet, which `assembly` makes, to standard output; or `refused`, the
// number and the line to standard error.
#![tactic(auto)]

use std::io;

fn main(rt: HostRuntime) -> io::Result<()> {
    // one byte more than a text may have here, so that a longer one is seen to be too long
    let mut text = [0u8; 131073];
    let count = input::read_full(&mut rt.stdin(), &mut text)?;
    if 131072 < count {
        return rt.eprintln("the text is longer than 131072 bytes");
    }
    let mut sheet = [0u8; 36864];
    match assembly::assemble(&text[..count], &mut sheet) {
        Ok(n) => rt.write_all(word::part::first(&sheet, n)),
        Err(r) => eprintln!(rt; "{r}"),
    }
}
