// Document 01's values, run: the readings R1 to R12 on the tag engine and, where they say nothing of the rules, on the plain engine; and
// every stop.
#![tactic(auto)]

mod memory;
mod readings;
mod stops;
mod trial;

use std::io;

fn main(rt: HostRuntime) -> io::Result<()> {
    readings::labelled(&rt)?;
    readings::others(&rt)?;
    readings::pages(&rt)?;
    readings::calls(&rt)?;
    readings::rows(&rt)?;
    stops::places(&rt)?;
    stops::entries(&rt)?;
    stops::full(&rt)?;
    stops::sums(&rt)?;
    stops::closed(&rt)?;
    stops::returns(&rt)
}
