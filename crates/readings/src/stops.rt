// Every stop from 0 to 11.
use crate::trial::{on_pages, on_two};
use engine::Clearances;
use std::io;

// Stops 0 to 2: the allowance and the place.
pub(crate) fn places(rt: &impl Print) -> io::Result<()> {
    on_two(
        rt,
        "stop 0, Push on the last step",
        b"\x05\x01\0\0\0\0\0\0\0",
        5,
        1,
    )?;
    on_two(
        rt,
        "stop 1, Push 0 and Jump round and round",
        b"\x05\0\0\0\0\0\0\0\0\x08",
        5,
        5,
    )?;
    on_two(
        rt,
        "stop 2, Jump to 9",
        b"\x05\x09\0\0\0\0\0\0\0\x08",
        5,
        1000,
    )
}

// Stops 3 to 5: what is on the stack, and the address. Add does not reach past a frame.
pub(crate) fn entries(rt: &impl Print) -> io::Result<()> {
    on_two(
        rt,
        "stop 3, Add over a frame",
        b"\x05\x01\0\0\0\0\0\0\0\x05\x03\0\0\0\0\0\0\0\x0a\x01",
        5,
        1000,
    )?;
    on_two(
        rt,
        "stop 4, Ret on a value",
        b"\x05\x01\0\0\0\0\0\0\0\x0b",
        5,
        1000,
    )?;
    on_two(
        rt,
        "stop 5, Load from -1",
        b"\x05\xff\xff\xff\xff\xff\xff\xff\xff\x06",
        5,
        1000,
    )
}

// Stops 6 to 8. Cell 1 holds an address 0 with label 1, under which cell 0 is not stored to. A byte 05 repeated is Push after Push. The
// output space holds three lines.
pub(crate) fn full(rt: &impl Print) -> io::Result<()> {
    on_two(
        rt,
        "stop 6, Store at a labelled address",
        b"\x05\x09\0\0\0\0\0\0\0\x05\x01\0\0\0\0\0\0\0\x06\x07",
        0,
        1000,
    )?;
    on_two(rt, "256 Push", &[5u8; 2304], 5, 1000)?;
    on_two(rt, "stop 7, 257 Push", &[5u8; 2313], 5, 1000)?;
    on_two(
        rt,
        "stop 8, a fourth line",
        b"\x05\0\0\0\0\0\0\0\0\x04\x05\0\0\0\0\0\0\0\0\x04\x05\0\0\0\0\0\0\0\0\x04\x05\0\0\0\0\0\0\0\0\x04",
        5,
        1000,
    )?;
    let three = b"\x05\x01\0\0\0\0\0\0\0\x04\x05\x02\0\0\0\0\0\0\0\x04\x05\x03\0\0\0\0\0\0\0\x04";
    on_two(rt, "stop 8, no space for the end line", three, 5, 1000)?;
    on_two(rt, "stop 8, and the allowance is spent", three, 5, 6)
}

// Stop 9: sums and differences at both ends of 64 bits; R6 is one more.
pub(crate) fn sums(rt: &impl Print) -> io::Result<()> {
    on_two(
        rt,
        "2^63 - 1 plus 0",
        b"\x05\0\0\0\0\0\0\0\0\x05\xff\xff\xff\xff\xff\xff\xff\x7f\x01\x04",
        5,
        1000,
    )?;
    on_two(
        rt,
        "-2^63 less 0",
        b"\x05\0\0\0\0\0\0\0\0\x05\0\0\0\0\0\0\0\x80\x02\x04",
        5,
        1000,
    )?;
    on_two(
        rt,
        "stop 9, -2^63 less 1",
        b"\x05\x01\0\0\0\0\0\0\0\x05\0\0\0\0\0\0\0\x80\x02\x04",
        5,
        1000,
    )?;
    on_two(
        rt,
        "stop 9, 0 less -2^63",
        b"\x05\0\0\0\0\0\0\0\x80\x05\0\0\0\0\0\0\0\0\x02\x04",
        5,
        1000,
    )?;
    on_two(
        rt,
        "stop 9, -2^63 plus -1",
        b"\x05\xff\xff\xff\xff\xff\xff\xff\xff\x05\0\0\0\0\0\0\0\x80\x01\x04",
        5,
        1000,
    )
}

// Every page is cleared for all owners but this one, whose clearance word is another.
fn all_but(page: usize, word: i64) -> Clearances {
    let mut clearances = Clearances::all();
    if let Some(w) = clearances.words.get_mut(page) {
        *w = word;
    }
    clearances
}

// Stop 10: cell 1 is owner 0's, and page 1 is closed to him, or cleared for him alone; then an end line, at a place of his, on page 0.
// Clearances that are refused.
pub(crate) fn closed(rt: &impl Print) -> io::Result<()> {
    let pages = b"\x05\0\0\0\0\0\0\0\0\x06\x04\x05\x01\0\0\0\0\0\0\0\x06\x0c\x01";
    on_pages(rt, "stop 10, OutputTo 1", pages, all_but(1, 2), 5, 1000)?;
    on_pages(rt, "OutputTo 1, cleared", pages, all_but(1, 1), 5, 1000)?;
    let end = b"\x05\x01\0\0\0\0\0\0\0\x06\x09\x01\0";
    on_pages(rt, "stop 10, the end line", end, all_but(0, 2), 5, 1000)?;
    on_pages(
        rt,
        "stop 10, and the allowance is spent",
        end,
        all_but(0, 2),
        5,
        3,
    )?;
    on_pages(
        rt,
        "a clearance of 2^32",
        b"",
        all_but(15, 4294967296),
        5,
        1000,
    )?;
    let words = [0i64; 16];
    on_pages(
        rt,
        "17 clearances",
        b"",
        Clearances { words, count: 17 },
        5,
        1000,
    )
}

// Stop 11: a return that does not give what the frame owes; before it stops 3 and 4.
pub(crate) fn returns(rt: &impl Print) -> io::Result<()> {
    on_two(
        rt,
        "stop 11, Ret to a frame that owes a result",
        b"\x05\x02\0\0\0\0\0\0\0\x0d\0\x01\x0b",
        5,
        1000,
    )?;
    on_two(
        rt,
        "stop 11, RetV to a frame that owes none",
        b"\x05\x02\0\0\0\0\0\0\0\x0d\0\0\x05\x01\0\0\0\0\0\0\0\x0e",
        5,
        1000,
    )?;
    on_two(
        rt,
        "stop 3, CallN 1 0 over a frame",
        b"\x05\x02\0\0\0\0\0\0\0\x0d\0\0\x05\x02\0\0\0\0\0\0\0\x0d\x01\0",
        5,
        1000,
    )?;
    on_two(
        rt,
        "stop 4, RetV with no frame under its value",
        b"\x05\x01\0\0\0\0\0\0\0\x0e",
        5,
        1000,
    )
}
