// One line of a text. Read specs/Scan.antt first.
ghost use Rattle.std.specs.Prelude.{◌≡◌, ◌+◌, ◌<◌, ◌≤◌, Ok, length, drop, get_or};
ghost use Rattle.assembly.specs.Scan.{letters_from, ends_at, number_at, spaced_at, counts_after, operand_at, NextWithin};
ghost use Rattle.assembly.specs.Scan.{Few, shape_at, line_of};
ghost use Rattle.assembly.specs.Scan.{counted as counted_of};

use program::{Operand, Shape};
use word::numeral::Decimal;

// A line: a command's code, its operand or 0, how many bytes it has, and the position after the line.
#[derive(Clone, Copy)]
pub(crate) struct Line {
    pub code: u64,
    pub operand: i64,
    pub bytes: usize,
    pub next: usize,
}

// Why a line is no command: it is malformed, or a number of its is out of range.
#[derive(Clone, Copy)]
pub(crate) enum Fault {
    Malformed,
    Outside,
}

// From this word on, eight letters are read.
const FULL: u64 = 1 << 56;

// What stands before a blank, as a word: 0, which is no name's, where it is longer than 8 bytes; and the position after it.
#[derive(Clone, Copy)]
struct Letters {
    word: u64,
    next: usize,
}

// The line that begins at a position.
pub(crate) fn line_at(text: &[u8], at: usize) -> Result<Line, Fault>
    requires { at < length text.now }
    ensures { result ≡ line_of text.now at }
{
    let name = name_at(text, at);
    let code = program::code_of(name.word);
    shaped(text, code, name.next, program::shape_of(code))
}

// The bytes up to the first space, control byte or end.
fn name_at(text: &[u8], at: usize) -> Letters
    requires { at ≤ length text.now }
    ensures { result ≡ letters_from 0 at (drop at text.now) }
{
    let mut word: u64 = 0;
    for i in at..text.len() {
        let byte = text[i];
        if byte <= b' ' {
            return Letters { word, next: i };
        }
        if FULL <= word {
            return Letters { word: 0, next: i };
        }
        word = word * 256 + byte as u64;
    }
    Letters {
        word,
        next: text.len(),
    }
}

// What follows the name of a command.
fn shaped(text: &[u8], code: u64, at: usize, shape: Option<Shape>) -> Result<Line, Fault>
    requires { (at ≤ length text.now) × Few shape }
    ensures { result ≡ shape_at text.now code at shape }
{
    let kind = shape.ok_or(Fault::Malformed)?.operand;
    let width = program::width_of(kind);
    if width == 0 {
        let next = ending(text, at)?;
        return Ok(Line {
            code,
            operand: 0,
            bytes: 1,
            next,
        });
    }
    numbered(text, code, width + 1, operand(text, at, kind))
}

// A command's operand: one number, or the word of two counts.
fn operand(text: &[u8], at: usize, kind: Operand) -> Decimal
    requires { at ≤ length text.now }
    ensures { result ≡ operand_at text.now at kind }
{
    let first = spaced(text, at);
    match kind {
        Operand::Signed(_) | Operand::Page => first,
        Operand::Counts => second(text, first),
    }
}

// The word of two counts, of which the first is read. One beyond the words is out of range, as -1 is.
fn second(text: &[u8], first: Decimal) -> Decimal
    requires { NextWithin (length text.now) first }
    ensures { result ≡ counts_after text.now first }
{
    match first {
        Decimal::Missing => Decimal::Missing,
        Decimal::Beyond(next) => counted(-1, spaced(text, next)),
        Decimal::Is(arguments, next) => counted(arguments, spaced(text, next)),
    }
}

// And of which the second is read.
fn counted(arguments: i64, results: Decimal) -> Decimal
    ensures { result ≡ counted_of arguments results }
{
    match results {
        Decimal::Missing => Decimal::Missing,
        Decimal::Beyond(next) => Decimal::Beyond(next),
        Decimal::Is(number, next) => Decimal::Is(program::counts(arguments, number), next),
    }
}

// One space and the number after it.
#[tactic(auto, unfolding(crate::specs::Scan::spaced_at))]
fn spaced(text: &[u8], at: usize) -> Decimal
    requires { at ≤ length text.now }
    ensures { result ≡ spaced_at text.now at }
{
    if byte_at(text, at) == b' ' {
        word::numeral::decimal_at(text, at + 1)
    } else {
        Decimal::Missing
    }
}

// A command with its operand, which ends the line and is in its range.
fn numbered(text: &[u8], code: u64, bytes: usize, number: Decimal) -> Result<Line, Fault>
    requires { NextWithin (length text.now) number }
    ensures { result ≡ number_at text.now code bytes number }
{
    match number {
        Decimal::Missing => Err(Fault::Malformed),
        Decimal::Beyond(at) => ending(text, at).and(Err(Fault::Outside)),
        Decimal::Is(operand, at) => {
            let next = ending(text, at)?;
            if program::takes(code, operand) {
                Ok(Line {
                    code,
                    operand,
                    bytes,
                    next,
                })
            } else {
                Err(Fault::Outside)
            }
        }
    }
}

// The position after a line that ends here; it is malformed where it goes on.
fn ending(text: &[u8], at: usize) -> Result<usize, Fault>
    requires { at ≤ length text.now }
    ensures { result ≡ ends_at text.now at (Ok (at + 1)) }
{
    if byte_at(text, at) == b'\n' {
        Ok(at + 1)
    } else {
        Err(Fault::Malformed)
    }
}

// The byte at a position; a text's end reads as a newline.
fn byte_at(text: &[u8], at: usize) -> u8
    ensures { result ≡ get_or text.now at 10 }
{
    text.get(at).copied().unwrap_or(b'\n')
}
