// Check 7, beside check 6. Read specs/Row.antt of `policy` first; specs/RowCode.antt says what the code finds of a row.
ghost use Rattle.std.specs.Prelude.{◌≡◌};
ghost use Rattle.label.specs.Word.{stored};
ghost use Rattle.policy.specs.Read.{read_table};
ghost use Rattle.policy.specs.Row.{is_stored, row_answer};
ghost use Rattle.tables.specs.Ask.{Readable};
ghost use Rattle.tables.specs.RowCode.{input_stored, verdict_agrees, row_labels, row_in, inspected};
ghost use Rattle.program.specs.Command.{opcode_of};

use crate::{Labels, Verdict, check_table, rule_of};
use label::Label;
use policy::row::Cache;
use program::{Refusal, shape_of};
use word::number::unsigned;

// What a table and a rule memory are found to be: check 6, and whether check 7 accepts the row.
#[derive(Clone, Copy, PartialEq, Eq, Debug)]
pub struct Inspected {
    pub table: Result<(), Refusal>,
    pub row: bool,
}

// A missing input's word.
const MISSING: i64 = -1;

// An input's word is a label where the command supplies the input, else -1, for which the empty label stands.
fn input_stored(supplied: bool, word: i64) -> Option<Label>
    ensures { result ≡ input_stored supplied word }
{
    if supplied {
        Label::try_from(word).ok()
    } else {
        (word == MISSING).then_some(Label::EMPTY)
    }
}

// A word stores this label.
fn stores(word: i64, label: Label) -> bool
    ensures { result ≡ is_stored (stored word) label.0 }
{
    Label::try_from(word).ok() == Some(label)
}

// The row's last two words are the table's own two labels, and it allows the command.
fn agrees(verdict: Verdict, place: i64, res: i64) -> bool
    ensures { result ≡ verdict_agrees verdict place res }
{
    verdict.is_some_and(|labels| stores(place, labels.place) && stores(res, labels.result))
}

// The labels of a row whose command supplies so many inputs.
fn row_labels(cache: Cache, supplied: usize) -> Option<Labels>
    ensures { result ≡ row_labels supplied cache.words }
{
    Some(Labels {
        place: Label::try_from(cache.get(1)).ok()?,
        input1: input_stored(1 <= supplied, cache.get(2))?,
        input2: input_stored(2 <= supplied, cache.get(3))?,
        input3: input_stored(3 <= supplied, cache.get(4))?,
    })
}

// A row whose command has this code: does the table allow it with the row's labels, and are the last two the table's own?
fn allowed_row(bytes: &[u8], code: u64, cache: Cache) -> bool
    requires { Readable (read_table bytes.now) }
    ensures { result ≡ row_in (read_table bytes.now) (opcode_of code) cache.words }
{
    let Some(shape) = shape_of(code) else {
        return false;
    };
    let Some(labels) = row_labels(cache, shape.inputs) else {
        return false;
    };
    let verdict = rule_of(bytes, shape.rule as u64, labels);
    agrees(verdict, cache.get(5), cache.get(6))
}

// Check 7 for a table: the row is empty, or an allowed row of this table.
fn check_row(bytes: &[u8], cache: Cache) -> bool
    requires { Readable (read_table bytes.now) }
    ensures { result ≡ row_answer (read_table bytes.now) cache.words }
{
    cache.is_empty() || unsigned(cache.get(0)).is_some_and(|code| allowed_row(bytes, code, cache))
}

// Checks 6 and 7 of document 01 over any bytes and any seven words; where the bytes are no table, only the empty row is accepted.
pub fn inspect(bytes: &[u8], cache: Cache) -> Inspected
    ensures { result ≡ inspected (read_table bytes.now) cache.words }
{
    let table = check_table(bytes);
    let row = if table.is_ok() {
        check_row(bytes, cache)
    } else {
        cache.is_empty()
    };
    Inspected { table, row }
}
