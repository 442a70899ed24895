// Listing the commands of an acceptable sheet.
ghost use Rattle.std.specs.Prelude.{◌≡◌, reverse, ◌+◌, ◌-◌, ◌*◌, ◌/◌, ◌^◌, ◌≤◌, leb, length, pos};
ghost use Rattle.word.specs.Digits.{digits_of};
ghost use Rattle.word.specs.Lay.{laid, laid_at};
ghost use Rattle.program.specs.Command.{opcode_of};
ghost use Rattle.assembly.specs.Space.{Counted, Acceptable, Bare, text_of, numbers_in, number_text, operand_in, code_text};

use program::Operand;

// The numbers that are written of an operand: none, one or two, which an array beside a length would say no plainer.
#[derive(Clone, Copy)]
pub(crate) enum Numbers {
    None,
    One(i64),
    Two(i64, i64),
}

// Is there room for the text of a sheet? It is measured only where there is none for the longest line of every command.
pub(crate) fn fits(sheet: &[u8], count: usize, room: usize) -> bool
    requires { Counted sheet.now count }
    ensures { result ≡ leb (length (text_of sheet.now)) room }
{
    26 * count <= room || measure(sheet) <= room
}

// How long the text of a sheet is.
fn measure(sheet: &[u8]) -> usize
    requires { Acceptable sheet.now }
    ensures { result ≡ length (text_of sheet.now) }
{
    let mut at: usize = 0;
    let mut size: usize = 0;
    // commands differ in length
    while at < sheet.len() {
        let code = sheet[at] as u64;
        let Ok((operand, next)) = program::command_at(sheet, at) else {
            return size;
        };
        size += line_length(code, operand);
        at = next;
    }
    size
}

// Writes the text of a sheet, for which there is room; how long it is.
pub(crate) fn write(sheet: &[u8], out: &mut [u8]) -> usize
    requires { Acceptable sheet.now × (length (text_of sheet.now) ≤ length out.old) }
    ensures answer { result ≡ length (text_of sheet.now) }
    ensures written { out.new ≡ laid (text_of sheet.now) out.old }
{
    let mut at: usize = 0;
    let mut size: usize = 0;
    // commands differ in length
    while at < sheet.len() {
        let code = sheet[at] as u64;
        let Ok((operand, next)) = program::command_at(sheet, at) else {
            return size;
        };
        size = if next == at + 1 {
            put_bare(code, out, size)
        } else {
            put_line(code, operand, out, size)
        };
        at = next;
    }
    size
}

// How long the line of a command is, with its newline.
fn line_length(code: u64, operand: i64) -> usize
    ensures { result ≡ length (code_text (opcode_of code) operand) }
{
    let name = program::name_of(code);
    name.length + operand_length(code, operand) + 1
}

fn operand_length(code: u64, operand: i64) -> usize
    ensures { result ≡ length (operand_in (opcode_of code) operand) }
{
    match numbers_of(code, operand) {
        Numbers::None => 0,
        Numbers::One(a) => number_length(a),
        Numbers::Two(a, d) => number_length(a) + number_length(d),
    }
}

// How long a number is with the space before it.
fn number_length(number: i64) -> usize
    ensures { result ≡ length (number_text number) }
{
    word::text::decimal_length(number) + 1
}

// Writes the line of a command, for which there is room; the position after it.
fn put_line(code: u64, operand: i64, out: &mut [u8], at: usize) -> usize
    requires { at + length (code_text (opcode_of code) operand) ≤ length out.old }
    ensures answer { result ≡ at + length (code_text (opcode_of code) operand) }
    ensures written { out.new ≡ laid_at at (code_text (opcode_of code) operand) out.old }
{
    let name = program::name_of(code);
    put_name(name.word, name.length, out, at);
    let end = put_operand(code, operand, out, at + name.length);
    out[end] = b'\n';
    end + 1
}

// Writes the line of a command that has no operand: it has a short name, and is sooner written so.
fn put_bare(code: u64, out: &mut [u8], at: usize) -> usize
    requires { Bare (opcode_of code) × (at + length (code_text (opcode_of code) (pos 0)) ≤ length out.old) }
    ensures answer { result ≡ at + length (code_text (opcode_of code) (pos 0)) }
    ensures written { out.new ≡ laid_at at (code_text (opcode_of code) (pos 0)) out.old }
{
    let name = program::name_of(code);
    put_short(name.word, name.length, out, at);
    let end = at + name.length;
    out[end] = b'\n';
    end + 1
}

// Each number of an operand after one space.
fn put_operand(code: u64, operand: i64, out: &mut [u8], at: usize) -> usize
    requires { at + length (operand_in (opcode_of code) operand) ≤ length out.old }
    ensures answer { result ≡ at + length (operand_in (opcode_of code) operand) }
    ensures written { out.new ≡ laid_at at (operand_in (opcode_of code) operand) out.old }
{
    match numbers_of(code, operand) {
        Numbers::None => at,
        Numbers::One(a) => put_number(a, out, at),
        Numbers::Two(a, d) => {
            let end = put_number(a, out, at);
            put_number(d, out, end)
        }
    }
}

// One space and a number, for which there is room; the position after it.
fn put_number(number: i64, out: &mut [u8], at: usize) -> usize
    requires { at + length (number_text number) ≤ length out.old }
    ensures answer { result ≡ at + length (number_text number) }
    ensures written { out.new ≡ laid_at at (number_text number) out.old }
{
    out[at] = b' ';
    word::text::put_decimal(number, out, at + 1).unwrap_or(at)
}

// The numbers that are written of an operand: none, itself, or two counts.
fn numbers_of(code: u64, operand: i64) -> Numbers
    ensures { result ≡ numbers_in (opcode_of code) operand }
{
    let Some(shape) = program::shape_of(code) else {
        return Numbers::None;
    };
    match shape.operand {
        Operand::Signed(0) => Numbers::None,
        Operand::Signed(_) | Operand::Page => Numbers::One(operand),
        Operand::Counts => {
            let arguments = program::arguments_of(operand) as i64;
            let results = program::results_of(operand) as i64;
            Numbers::Two(arguments, results)
        }
    }
}

// The letters of a name's word, the last the lowest.
fn put_name(word: u64, count: usize, out: &mut [u8], at: usize)
    requires { at + count ≤ length out.old }
    ensures { out.new ≡ laid_at at (reverse (digits_of 256 count word)) out.old }
{
    match count {
        3..=6 => put_short(word, count, out, at),
        _ => put_letters(word, count, out, at),
    }
}

// Three to six letters are the first three and the last three, which may have some in common: that is sooner done than to count them.
fn put_short(word: u64, count: usize, out: &mut [u8], at: usize)
    requires { (3 ≤ count) × (count ≤ 6) × (at + count ≤ length out.old) }
    ensures { out.new ≡ laid_at at (reverse (digits_of 256 count word)) out.old }
{
    put_three(first_three(word, count), out, at);
    put_three(word, out, at + (count - 3));
}

// The first three letters of some.
fn first_three(word: u64, count: usize) -> u64
    requires { (3 ≤ count) × (count ≤ 6) }
    ensures { result ≡ word / 2 ^ (8 * (count - 3)) }
{
    word >> (8 * (count - 3))
}

// The last three letters of a word.
fn put_three(word: u64, out: &mut [u8], at: usize)
    requires { at + 3 ≤ length out.old }
    ensures { out.new ≡ laid_at at (reverse (digits_of 256 3 word)) out.old }
{
    out[at] = (word / 65536 % 256) as u8;
    out[at + 1] = (word / 256 % 256) as u8;
    out[at + 2] = (word % 256) as u8;
}

// Some letters, one by one: bytes, where the library's digits (`word::text`) are characters of a base up to 16.
fn put_letters(word: u64, count: usize, out: &mut [u8], at: usize)
    requires { at + count ≤ length out.old }
    ensures { out.new ≡ laid_at at (reverse (digits_of 256 count word)) out.old }
{
    let mut rest = word;
    for i in (0..count).rev() {
        out[at + i] = (rest % 256) as u8;
        rest /= 256;
    }
}
