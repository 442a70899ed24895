// `page` reads a job from standard input and prints its page, which `report` makes: nothing else is done here.
#![tactic(auto)]

use std::io;

fn main(rt: HostRuntime) -> io::Result<()> {
    // one byte more than a job may have, so that a longer one is seen to be too long
    let mut space = [0u8; 65537];
    let count = input::read_full(&mut rt.stdin(), &mut space)?;
    let mut out = [0u8; report::PAGE_LIMIT];
    let made = report::page(&space[..count], &mut out);
    rt.write_all(report::printed(made, &out))
}
