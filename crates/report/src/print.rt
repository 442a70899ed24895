// The text of a page, written from a position on into a space that has room for it. Read specs/Lines.antt first.
ghost use Rattle.std.specs.Prelude.{◌≡◌, ◌+◌, ◌*◌, ◌≤◌, length, true};
ghost use Rattle.word.specs.Text.{natural, decimal, hexadecimal};
ghost use Rattle.engine.specs.Runs.{read_in};
ghost use Rattle.engine.specs.Layout.{line_from, lines_of};
ghost use Rattle.program.specs.Command.{is_page};
ghost use Rattle.report.specs.Lines.{job_text, refused_text, page_text, head_text, line_text, shown_text, lines_text, PageWords};
ghost use Rattle.report.specs.Written.{Written};

use engine::{Line, Lines};
use label::Label;
use machine::Kind;
use program::Refusal;

#[tactic(auto, using(crate::proofs::Texts::written_part))]
fn bytes(text: &[u8], out: &mut [u8], at: usize) -> usize
    requires { at + length text.now ≤ length out.old }
    ensures { Written text.now out.old at result out.new }
{
    let next = at + text.len();
    out[at..next].copy_from_slice(text);
    next
}

// A number of each sort, by its own function of `word`: a line each.
fn number(n: u64, out: &mut [u8], at: usize) -> usize
    requires { at + 20 ≤ length out.old }
    ensures { Written (natural n) out.old at result out.new }
{
    word::text::put_natural(n, out, at).unwrap_or(at)
}

fn signed_number(n: i64, out: &mut [u8], at: usize) -> usize
    requires { at + 20 ≤ length out.old }
    ensures { Written (decimal n) out.old at result out.new }
{
    word::text::put_decimal(n, out, at).unwrap_or(at)
}

fn digits(label: Label, out: &mut [u8], at: usize) -> usize
    requires { at + 8 ≤ length out.old }
    ensures { Written (hexadecimal label.0) out.old at result out.new }
{
    word::text::put_hex(label.0, out, at).unwrap_or(at)
}

// A bad job.
pub(crate) fn bad_job(offset: usize, out: &mut [u8]) -> usize
    requires { 30 ≤ length out.old }
    ensures { Written (job_text offset) out.old 0 result out.new }
{
    let word = bytes(b"job ", out, 0);
    let last = number(offset as u64, out, word);
    bytes(b"\n", out, last)
}

// A refusal.
pub(crate) fn refused(r: Refusal, out: &mut [u8]) -> usize
    requires { 60 ≤ length out.old }
    ensures { Written (refused_text r.code r.position) out.old 0 result out.new }
{
    let word = bytes(b"refused ", out, 0);
    let code = number(r.code, out, word);
    let gap = bytes(b" ", out, code);
    let place = number(r.position as u64, out, gap);
    bytes(b"\n", out, place)
}

// What a line starts with: its page, which has at most two digits, and a space.
fn page(n: i64, out: &mut [u8], at: usize) -> usize
    requires { (at + 21 ≤ length out.old) × (is_page n ≡ true) }
    ensures { Written (page_text n) out.old at result out.new }
{
    let last = signed_number(n, out, at);
    bytes(b" ", out, last)
}

// Then its number, or `end`.
fn head(kind: Kind, n: i64, out: &mut [u8], at: usize) -> usize
    requires { at + 20 ≤ length out.old }
    ensures { Written (head_text kind n) out.old at result out.new }
{
    match kind {
        Kind::Number => signed_number(n, out, at),
        Kind::End => bytes(b"end", out, at),
    }
}

// A line: at most 2 bytes for the page, 20 for the number, 8 for the label, two spaces and a newline.
fn line(x: Line, out: &mut [u8], at: usize) -> usize
    requires { (at + 33 ≤ length out.old) × (is_page x.page ≡ true) }
    ensures text { Written (line_text (line_from x)) out.old at result out.new }
    ensures short { result ≤ at + 33 }
{
    let start = page(x.page, out, at);
    let first = head(x.kind, x.number, out, start);
    let gap = bytes(b" ", out, first);
    let second = digits(x.label, out, gap);
    bytes(b"\n", out, second)
}

// A line that the reader may see, or nothing.
#[tactic(auto, using(crate::proofs::Printing::written_shown))]
fn shown(x: Line, reader: Label, out: &mut [u8], at: usize) -> usize
    requires { (at + 33 ≤ length out.old) × (is_page x.page ≡ true) }
    ensures text { Written (shown_text reader.0 (line_from x)) out.old at result out.new }
    ensures short { result ≤ at + 33 }
{
    if x.label.flows(reader) {
        line(x, out, at)
    } else {
        at
    }
}

// The first lines of an output space, those whose label flows to the reader's set.
pub(crate) fn lines(space: Lines<'_>, written: usize, reader: Label, out: &mut [u8]) -> usize
    requires { (33 * length space.pages.now ≤ length out.old) × PageWords space.pages.now }
    ensures { Written (lines_text reader.0 (lines_of written (read_in space.entry)))
        out.old 0 result out.new }
{
    let mut at: usize = 0;
    for i in 0..written.min(space.room()) {
        at = shown(space.at(i), reader, out, at);
    }
    at
}
