// What C and Rust link: the functions of include/luvrodan.h, each that of `exports`, under its name. Read `exports` first.
#![tactic(auto)]

ghost use Rattle.std.specs.Prelude.{◌≡◌, length};
ghost use Rattle.assembly.specs.Assembly.{assembled, listed};
ghost use Rattle.policy.specs.Read.{read_table};
ghost use Rattle.handler.specs.Translate.{handler_of};
ghost use Rattle.handler.specs.Claim.{Handles};
ghost use Rattle.step.specs.Lent.{cells, lent};
ghost use Rattle.engine.specs.Memory.{output, memory};
ghost use Rattle.exports.specs.Exported.{plain_left, exported_plain, tagged_left, exported_tagged, page_left, exported_page};
ghost use Rattle.exports.specs.Exported.{ExportedPromises, written_left, exported_written};

use exports::{LuvrodanPageResult, LuvrodanResult, LuvrodanWritten};

// A run under the standard rules.
#[unsafe(no_mangle)]
pub extern "C" fn luvrodan_plain(
    sheet: &[u8],
    values: &mut [i64],
    labels: &mut [i64],
    clearances: &[i64],
    program: &mut [i64],
    stack: &mut [i64],
    numbers: &mut [i64],
    line_labels: &mut [i64],
    kinds: &mut [i64],
    pages: &mut [i64],
    fuel: u64,
) -> LuvrodanResult
    ensures { plain_left result
        (memory program.new (lent stack.new (cells values.new labels.new))
        (output numbers.new line_labels.new kinds.new pages.new))
        ≡ exported_plain sheet.now clearances.now
        (memory program.old (lent stack.old (cells values.old labels.old))
        (output numbers.old line_labels.old kinds.old pages.old))
        fuel }
{
    exports::luvrodan_plain(
        sheet,
        values,
        labels,
        clearances,
        program,
        stack,
        numbers,
        line_labels,
        kinds,
        pages,
        fuel,
    )
}

// A run on the tag engine, under the rules of a table.
#[unsafe(no_mangle)]
pub extern "C" fn luvrodan_tagged(
    sheet: &[u8],
    values: &mut [i64],
    labels: &mut [i64],
    clearances: &[i64],
    table: &[u8],
    rule_memory: &mut [i64],
    program: &mut [i64],
    stack: &mut [i64],
    handler: &mut [i64],
    numbers: &mut [i64],
    line_labels: &mut [i64],
    kinds: &mut [i64],
    pages: &mut [i64],
    fuel: u64,
) -> LuvrodanResult
    ensures left { tagged_left result rule_memory.new
        (memory program.new (lent stack.new (cells values.new labels.new))
        (output numbers.new line_labels.new kinds.new pages.new))
        handler.new
        ≡ exported_tagged sheet.now table.now rule_memory.old clearances.now
        (memory program.old (lent stack.old (cells values.old labels.old))
        (output numbers.old line_labels.old kinds.old pages.old))
        handler.old fuel }
    ensures rules { ExportedPromises sheet.now table.now clearances.now
        (memory program.old (lent stack.old (cells values.old labels.old))
        (output numbers.old line_labels.old kinds.old pages.old))
        handler.old fuel
        (tagged_left result rule_memory.new
        (memory program.new (lent stack.new (cells values.new labels.new))
        (output numbers.new line_labels.new kinds.new pages.new))
        handler.new) }
{
    exports::luvrodan_tagged(
        sheet,
        values,
        labels,
        clearances,
        table,
        rule_memory,
        program,
        stack,
        handler,
        numbers,
        line_labels,
        kinds,
        pages,
        fuel,
    )
}

// How many kernel commands the handler of a table has; 0 where the bytes are no table.
#[unsafe(no_mangle)]
pub extern "C" fn luvrodan_handler_count(table: &[u8]) -> u64
    ensures count { result ≡ length (handler_of (read_table table.now)) }
    ensures handler { Handles (read_table table.now) (λ t code. result ≡ length code) }
{
    exports::luvrodan_handler_count(table)
}

// The page of a job: what the program `page` prints for these bytes.
#[unsafe(no_mangle)]
pub extern "C" fn luvrodan_page(job: &[u8], page: &mut [u8]) -> LuvrodanPageResult
    ensures { page_left result page.new ≡ exported_page job.now page.old }
{
    exports::luvrodan_page(job, page)
}

// Reads a text into a sheet.
#[unsafe(no_mangle)]
pub extern "C" fn luvrodan_assemble(text: &[u8], sheet: &mut [u8]) -> LuvrodanWritten
    ensures { written_left result sheet.new ≡ exported_written (assembled text.now) sheet.old }
{
    exports::luvrodan_assemble(text, sheet)
}

// Lists a sheet as a text.
#[unsafe(no_mangle)]
pub extern "C" fn luvrodan_list(sheet: &[u8], text: &mut [u8]) -> LuvrodanWritten
    ensures { written_left result text.new ≡ exported_written (listed sheet.now) text.old }
{
    exports::luvrodan_list(sheet, text)
}
