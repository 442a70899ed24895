// The page program's work: from the bytes of a job to the bytes of a page. Read in specs/: Job, Lines, Page.
#![tactic(auto)]

pub mod job;
mod print;

ghost use Rattle.std.specs.Prelude.{◌≡◌, ◌≤◌, length, take};
ghost use Rattle.step.specs.Lent.{cells};
ghost use Rattle.report.specs.Job.{sheet_of};
ghost use Rattle.report.specs.Written.{Written};
ghost use Rattle.report.specs.Page.{run_text, page_of, page_limit, page_answer, page_out, printed_of};

use engine::{Clearances, Lines};
use job::Said;
use label::Label;
use policy::row::Cache;

// No page is longer.
pub const PAGE_LIMIT: usize = 33792;

// Runs a sheet on its cells, in space of its own, with every page cleared for all owners, and prints what the reader may see.
fn run(
    sheet: &[u8],
    values: &mut [i64],
    labels: &mut [i64],
    allowance: u64,
    reader: Label,
    out: &mut [u8],
) -> usize
    requires { page_limit ≤ length out.old }
    ensures { Written (run_text (cells values.old labels.old) allowance reader.0 sheet.now)
        out.old 0 result out.new }
{
    let table = policy::standard_table::bytes();
    let mut program = [0i64; 8192];
    let mut stack = [0i64; 768];
    let mut handler = [0i64; 332];
    let mut numbers = [0i64; 1024];
    let mut line_labels = [0i64; 1024];
    let mut kinds = [0i64; 1024];
    let mut pages = [0i64; 1024];
    let ended = tagged::execute(
        sheet,
        values,
        labels,
        Clearances::all(),
        &table,
        Cache::empty(),
        &mut program,
        &mut stack,
        &mut handler,
        &mut numbers,
        &mut line_labels,
        &mut kinds,
        &mut pages,
        allowance,
    );
    match ended.answer {
        Err(r) => print::refused(r, out),
        Ok(ran) => {
            let space = Lines {
                numbers: &numbers,
                labels: &line_labels,
                kinds: &kinds,
                pages: &pages,
            };
            print::lines(space, ran.machine.lines, reader, out)
        }
    }
}

// The cells are the first words of the two runs, and the sheet is the job's.
fn on_cells(job: &[u8], said: Said, values: &mut [i64], labels: &mut [i64], out: &mut [u8]) -> usize
    requires { (said.cells ≤ length values.old) × (said.cells ≤ length labels.old) × (page_limit ≤ length out.old) }
    ensures { Written (run_text (cells (take said.cells values.old) (take said.cells labels.old))
        said.allowance said.reader.0 (sheet_of job.now)) out.old 0 result out.new }
{
    run(
        job::sheet(job),
        &mut values[..said.cells],
        &mut labels[..said.cells],
        said.allowance,
        said.reader,
        out,
    )
}

fn write(job: &[u8], out: &mut [u8]) -> usize
    requires { page_limit ≤ length out.old }
    ensures { Written (page_of job.now) out.old 0 result out.new }
{
    let mut values = [0i64; 1024];
    let mut labels = [0i64; 1024];
    match job::read(job, &mut values, &mut labels) {
        Err(offset) => print::bad_job(offset, out),
        Ok(said) => on_cells(job, said, &mut values, &mut labels, out),
    }
}

// The page of a job, at the start of a space that holds the longest one.
#[tactic(auto, using(crate::proofs::Paging::page_short, crate::proofs::Paging::page_answered))]
pub fn page(job: &[u8], out: &mut [u8]) -> Option<usize>
    ensures answer { result ≡ page_answer job.now out.old }
    ensures out { out.new ≡ page_out job.now out.old }
{
    if out.len() < PAGE_LIMIT {
        return None;
    }
    Some(write(job, out))
}

// The part of a space that is to be printed: as many bytes from its start as were written, or none.
#[tactic(auto, using(crate::proofs::Paging::printed_first))]
pub fn printed(made: Option<usize>, out: &[u8]) -> &[u8]
    ensures { result.now ≡ printed_of made out.now }
{
    word::part::first(out, made.unwrap_or(0))
}
