// The functions of include/luvrodan.h over the proved engines, which `exports_c` hands to C and Rust under their names: so their parameters
// are the header's, each run of words for itself. Read specs/Exported.antt first.
#![tactic(auto)]

mod clearance;
mod result;
mod row;

ghost use Rattle.std.specs.Prelude.{◌≡◌, length};
ghost use Rattle.assembly.specs.Assembly.{assembled, listed};
ghost use Rattle.policy.specs.Read.{read_table};
ghost use Rattle.handler.specs.Translate.{handler_of};
ghost use Rattle.handler.specs.Claim.{Handles};
ghost use Rattle.step.specs.Lent.{cells, lent};
ghost use Rattle.engine.specs.Memory.{output, memory};
ghost use Rattle.exports.specs.Exported.{plain_left, exported_plain, tagged_left, exported_tagged, page_left, exported_page};
ghost use Rattle.exports.specs.Exported.{ExportedPromises, written_left, exported_written};

pub use result::{LuvrodanPageResult, LuvrodanResult, LuvrodanWritten};

// A run under the standard rules.
pub fn luvrodan_plain(
    sheet: &[u8],
    values: &mut [i64],
    labels: &mut [i64],
    clearances: &[i64],
    program: &mut [i64],
    stack: &mut [i64],
    numbers: &mut [i64],
    line_labels: &mut [i64],
    kinds: &mut [i64],
    pages: &mut [i64],
    fuel: u64,
) -> LuvrodanResult
    ensures { plain_left result
        (memory program.new (lent stack.new (cells values.new labels.new))
        (output numbers.new line_labels.new kinds.new pages.new))
        ≡ exported_plain sheet.now clearances.now
        (memory program.old (lent stack.old (cells values.old labels.old))
        (output numbers.old line_labels.old kinds.old pages.old))
        fuel }
{
    let answer = plain::execute(
        sheet,
        values,
        labels,
        clearance::given(clearances),
        program,
        stack,
        numbers,
        line_labels,
        kinds,
        pages,
        fuel,
    );
    result::of_answer(answer, 0, 0)
}

// A run on the tag engine, under the rules of a table.
pub fn luvrodan_tagged(
    sheet: &[u8],
    values: &mut [i64],
    labels: &mut [i64],
    clearances: &[i64],
    table: &[u8],
    rule_memory: &mut [i64],
    program: &mut [i64],
    stack: &mut [i64],
    handler: &mut [i64],
    numbers: &mut [i64],
    line_labels: &mut [i64],
    kinds: &mut [i64],
    pages: &mut [i64],
    fuel: u64,
) -> LuvrodanResult
    ensures left { tagged_left result rule_memory.new
        (memory program.new (lent stack.new (cells values.new labels.new))
        (output numbers.new line_labels.new kinds.new pages.new))
        handler.new
        ≡ exported_tagged sheet.now table.now rule_memory.old clearances.now
        (memory program.old (lent stack.old (cells values.old labels.old))
        (output numbers.old line_labels.old kinds.old pages.old))
        handler.old fuel }
    ensures rules { ExportedPromises sheet.now table.now clearances.now
        (memory program.old (lent stack.old (cells values.old labels.old))
        (output numbers.old line_labels.old kinds.old pages.old))
        handler.old fuel
        (tagged_left result rule_memory.new
        (memory program.new (lent stack.new (cells values.new labels.new))
        (output numbers.new line_labels.new kinds.new pages.new))
        handler.new) }
{
    let tagged = tagged::execute(
        sheet,
        values,
        labels,
        clearance::given(clearances),
        table,
        row::given(rule_memory),
        program,
        stack,
        handler,
        numbers,
        line_labels,
        kinds,
        pages,
        fuel,
    );
    row::leave(rule_memory, tagged.cache);
    result::of_answer(tagged.answer, tagged.faults, tagged.kernel)
}

// How many kernel commands the handler of a table has; 0 where the bytes are no table.
pub fn luvrodan_handler_count(table: &[u8]) -> u64
    ensures count { result ≡ length (handler_of (read_table table.now)) }
    ensures handler { Handles (read_table table.now) (λ t code. result ≡ length code) }
{
    translator::count(table) as u64
}

// The page of a job: what the program `page` prints for these bytes.
#[tactic(auto, unfolding(crate::specs::Exported::exported_page))]
pub fn luvrodan_page(job: &[u8], page: &mut [u8]) -> LuvrodanPageResult
    ensures { page_left result page.new ≡ exported_page job.now page.old }
{
    report::page(job, page).into()
}

// Reads a text into a sheet.
#[tactic(auto, unfolding(crate::specs::Exported::exported_written))]
pub fn luvrodan_assemble(text: &[u8], sheet: &mut [u8]) -> LuvrodanWritten
    ensures { written_left result sheet.new ≡ exported_written (assembled text.now) sheet.old }
{
    assembly::assemble(text, sheet).into()
}

// Lists a sheet as a text.
#[tactic(auto, unfolding(crate::specs::Exported::exported_written))]
pub fn luvrodan_list(sheet: &[u8], text: &mut [u8]) -> LuvrodanWritten
    ensures { written_left result text.new ≡ exported_written (listed sheet.now) text.old }
{
    assembly::list(sheet, text).into()
}
