// One run of an engine, and what there is to say of it on standard output.
use crate::memory::Spaces;
use engine::{Clearances, Line, Lines, Ran};
use machine::Kind;
use policy::row::Cache;
use program::Refusal;
use std::io;

fn line(rt: &impl Print, x: Line) -> io::Result<()> {
    let label = x.label.0;
    match x.kind {
        Kind::Number => print!(rt; " (page {}: {} label {label})", x.page, x.number),
        Kind::End => print!(rt; " (page {}: end label {label})", x.page),
    }
}

fn stopped(rt: &impl Print, ran: Ran, lines: Lines<'_>) -> io::Result<()> {
    let m = ran.machine;
    print!(rt;
        "stop {}, steps {}, place {} label {}",
        ran.stop.number(),
        ran.steps,
        m.pc.0,
        m.label.0
    )?;
    print!(rt; ", depth {}, lines {}", m.depth, m.lines)?;
    for i in 0..m.lines {
        line(rt, lines.at(i))?;
    }
    Ok(())
}

fn report(
    rt: &impl Print,
    answer: Result<Ran, Refusal>,
    same: bool,
    spaces: &Spaces,
) -> io::Result<()> {
    match answer {
        Ok(ran) => stopped(rt, ran, spaces.lines()),
        Err(r) => {
            let memory = if same { "all as it came" } else { "CHANGED" };
            print!(rt; "refused {} at {}, {memory}", r.code, r.position)
        }
    }
}

// Words in brackets.
fn words(rt: &impl Print, run: &[i64]) -> io::Result<()> {
    print!(rt; "(")?;
    for (i, word) in run.iter().enumerate() {
        let comma = if i == 0 { "" } else { "," };
        print!(rt; "{comma}{word}")?;
    }
    print!(rt; ")")
}

// The tag engine under the standard table.
fn on(
    rt: &impl Print,
    sheet: &[u8],
    values: &mut [i64],
    labels: &mut [i64],
    clearances: Clearances,
    cache: Cache,
    fuel: u64,
) -> io::Result<()> {
    let table = policy::standard_table::bytes();
    let mut spaces = Spaces::new();
    let before = spaces.digest(values, labels);
    let r = tagged::execute(
        sheet,
        values,
        labels,
        clearances,
        &table,
        cache,
        &mut spaces.program,
        &mut spaces.stack,
        &mut spaces.handler,
        &mut spaces.numbers,
        &mut spaces.line_labels,
        &mut spaces.kinds,
        &mut spaces.pages,
        fuel,
    );
    let after = spaces.digest(values, labels);
    report(rt, r.answer, before == after, &spaces)?;
    print!(rt;
        ", faults {}, kernel steps {}, rule memory ",
        r.faults, r.kernel
    )?;
    words(rt, &r.cache.words)?;
    println!(rt;)
}

// The plain engine, so too.
fn plainly(
    rt: &impl Print,
    sheet: &[u8],
    values: &mut [i64],
    labels: &mut [i64],
    clearances: Clearances,
    fuel: u64,
) -> io::Result<()> {
    print!(rt; "  plain engine: ")?;
    let mut spaces = Spaces::new();
    let before = spaces.digest(values, labels);
    let answer = plain::execute(
        sheet,
        values,
        labels,
        clearances,
        &mut spaces.program,
        &mut spaces.stack,
        &mut spaces.numbers,
        &mut spaces.line_labels,
        &mut spaces.kinds,
        &mut spaces.pages,
        fuel,
    );
    let after = spaces.digest(values, labels);
    report(rt, answer, before == after, &spaces)?;
    println!(rt;)
}

// Both on document 01's two cells, the second with another number where wanted.
pub(crate) fn on_pages(
    rt: &impl Print,
    name: &str,
    sheet: &[u8],
    clearances: Clearances,
    second: i64,
    fuel: u64,
) -> io::Result<()> {
    print!(rt; "{name}: ")?;
    on(
        rt,
        sheet,
        &mut [7, second],
        &mut [0, 1],
        clearances,
        Cache::empty(),
        fuel,
    )?;
    plainly(rt, sheet, &mut [7, second], &mut [0, 1], clearances, fuel)
}

// With every page cleared for all owners.
pub(crate) fn on_two(
    rt: &impl Print,
    name: &str,
    sheet: &[u8],
    second: i64,
    fuel: u64,
) -> io::Result<()> {
    on_pages(rt, name, sheet, Clearances::all(), second, fuel)
}

// From a rule memory.
pub(crate) fn on_row(rt: &impl Print, name: &str, sheet: &[u8], words: [i64; 7]) -> io::Result<()> {
    print!(rt; "{name}: ")?;
    on(
        rt,
        sheet,
        &mut [7, 5],
        &mut [0, 1],
        Clearances::all(),
        Cache { words },
        1000,
    )
}
