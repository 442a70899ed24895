// R1 to R12 on document 01's two cells. Push is 05 and eight bytes, Bnz 09 and two.
use crate::trial::{on_row, on_two};
use std::io;

// R1 to R5.
pub(crate) fn labelled(rt: &impl Print) -> io::Result<()> {
    on_two(
        rt,
        "R1",
        b"\x05\x01\0\0\0\0\0\0\0\x06\x05\0\0\0\0\0\0\0\0\x06\x01\x04\x05\0\0\0\0\0\0\0\0\x06\x04",
        5,
        1000,
    )?;
    let branch =
        b"\x05\x01\0\0\0\0\0\0\0\x06\x09\x03\0\x05\0\0\0\0\0\0\0\0\x04\x05\x09\0\0\0\0\0\0\0\x04";
    on_two(rt, "R2", branch, 5, 1000)?;
    on_two(rt, "R3", branch, 0, 1000)?;
    on_two(
        rt,
        "R4",
        b"\x05\x01\0\0\0\0\0\0\0\x06\x09\x01\0\x05\x07\0\0\0\0\0\0\0\x05\0\0\0\0\0\0\0\0\x07",
        5,
        1000,
    )?;
    on_two(
        rt,
        "R5",
        b"\x05\x01\0\0\0\0\0\0\0\x06\x05\x08\0\0\0\0\0\0\0\x0a\x05\x08\0\0\0\0\0\0\0\x04\x05\x0a\0\0\0\0\0\0\0\x08\x09\x01\0\x0b",
        5,
        1000,
    )
}

// R6 adds 1 and 2^63 - 1: stop 9.
pub(crate) fn others(rt: &impl Print) -> io::Result<()> {
    on_two(
        rt,
        "R6",
        b"\x05\x01\0\0\0\0\0\0\0\x05\xff\xff\xff\xff\xff\xff\xff\x7f\x01\x04",
        5,
        1000,
    )?;
    on_two(rt, "R7", b"", 5, 0)?;
    on_two(rt, "R8", b"\x05\x01\0\0\0\0\0\0\0", 5, 0)?;
    on_two(rt, "R9", b"\x0b", 5, 1000)?;
    on_two(rt, "R10", b"\x05\x02\0\0\0\0\0\0\0\x06", 5, 1000)
}

// Cell 1 on page 1, cell 0 on page 0; a page that is no page.
pub(crate) fn pages(rt: &impl Print) -> io::Result<()> {
    on_two(
        rt,
        "OutputTo 1, Output",
        b"\x05\x01\0\0\0\0\0\0\0\x06\x0c\x01\x05\0\0\0\0\0\0\0\0\x06\x04",
        5,
        1000,
    )?;
    on_two(rt, "OutputTo 16", b"\x0b\x0c\x10", 5, 1000)
}

// A height corrected by a called function that returns it: cell 0 less cell 1. Sixteen arguments, and two results.
pub(crate) fn calls(rt: &impl Print) -> io::Result<()> {
    on_two(
        rt,
        "CallN 1 1, RetV",
        b"\x05\x06\0\0\0\0\0\0\0\x08\x05\0\0\0\0\0\0\0\0\x06\x02\x0e\x05\x01\0\0\0\0\0\0\0\x06\x05\x02\0\0\0\0\0\0\0\x0d\x01\x01\x04",
        5,
        1000,
    )?;
    on_two(rt, "CallN 16 0", b"\x0b\x0d\x10\0", 5, 1000)?;
    on_two(rt, "CallN 0 2", b"\x0b\x0d\0\x02", 5, 1000)
}

// R11 and R12, and a Push whose row is there already.
pub(crate) fn rows(rt: &impl Print) -> io::Result<()> {
    on_row(rt, "R11", b"", [1, 0, 1, 1, -1, 0, 1])?;
    on_row(rt, "R12", b"", [1, 0, 1, 1, -1, 0, 0])?;
    on_row(
        rt,
        "Push with its row in the rule memory",
        b"\x05\x01\0\0\0\0\0\0\0",
        [5, 0, -1, -1, -1, 0, 0],
    )
}
