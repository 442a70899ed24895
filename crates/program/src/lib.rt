// Programs (document 01: sheets). Read in specs/: Command, Decode, Space; Encode for the way back.
#![tactic(auto)]

pub mod code;
pub mod names;

ghost use Rattle.std.specs.Prelude.{◌≡◌, ◌+◌, ◌<◌, ◌≤◌, length, get_or, Some};
ghost use Rattle.program.specs.Decode.{decode, operand_at, refusal, refusal_text, check_answer};
ghost use Rattle.program.specs.Command.{opcode_of, width, is_page, arguments_of, results_of, is_counts};
ghost use Rattle.program.specs.Command.{counts as counts_of};
ghost use Rattle.program.specs.declared.Operand.TheVariants.{Counts};
ghost use Rattle.word.specs.Text.{put_answer, put_out};
ghost use Rattle.program.specs.Encode.{encode_code};
ghost use Rattle.word.specs.Field.{unsigned_at, signed_at};
ghost use Rattle.program.specs.Fetch.{shape_of, takes_of, permits_of, refuses_of, faults_of, field_of, fetch_field, fetch_of};
ghost use Rattle.program.specs.Name.{name_of, code_named};
ghost use Rattle.program.specs.Space.{write_space};

use std::fmt;

// A command of documents 01 and 02, with its operand where it has one: what the definitions speak of.
#[derive(Clone, Copy, PartialEq, Eq, Debug)]
pub enum Command {
    Add,
    Sub,
    Pop,
    Output,
    Push(i64),
    Load,
    Store,
    Jump,
    Bnz(i64),
    Call,
    Ret,
    OutputTo(i64),
    CallN(i64),
    RetV,
}

// A refusal of document 01: its number and its place. The number is no enum, since the definitions (`limits`, `check_of`) and the claim `Checks`
// speak of it.
#[derive(Clone, Copy, PartialEq, Eq, Debug)]
pub struct Refusal {
    pub code: u64,
    pub position: usize,
}

impl Refusal {
    pub fn new(code: u64, position: usize) -> Refusal
        ensures { result ≡ refusal code position }
    {
        Refusal { code, position }
    }
}

impl fmt::Display for Refusal {
    ghost output = { λ r. Some (refusal_text r) };

    fn fmt<W: fmt::Write>(&self, f: &mut fmt::Formatter<W>) -> fmt::Result {
        write!(f, "refused {} {}", self.code, self.position)
    }
}

// A command's name as a word: its letters as digits in base 256, the first the highest; and how many letters it has. Words, and no slices of
// bytes, since those take up to 1.35 of the time in reading and 2.6 in listing.
#[derive(Clone, Copy, PartialEq, Eq, Debug)]
pub struct Name {
    pub word: u64,
    pub length: usize,
}

// A command's operand: a signed number of so many bytes, of none where there is no operand; a page, an unsigned byte from 0 to 15; or
// two counts, an unsigned byte each: how many arguments, 0 to 15, and how many results, 0 or 1.
#[derive(Clone, Copy, PartialEq, Eq, Debug)]
pub enum Operand {
    Signed(usize),
    Page,
    Counts,
}

// What the table of commands says of a code: its operand, how many inputs are supplied, whether there is a result, and the number of its
// rule in a rule table.
#[derive(Clone, Copy, PartialEq, Eq, Debug)]
pub struct Shape {
    pub operand: Operand,
    pub inputs: usize,
    pub result: bool,
    pub rule: usize,
}

// Why there is no command at a position: its code is none, or its operand is cut.
#[derive(Clone, Copy, PartialEq, Eq, Debug)]
pub enum Fault {
    Unknown,
    Cut,
}

// A row of the table of commands.
fn row(operand: Operand, inputs: usize, has: bool, rule: usize) -> Option<Shape>
    ensures { result ≡ Some (record { operand = operand; inputs = inputs; result = has; rule = rule }) }
{
    Some(Shape {
        operand,
        inputs,
        result: has,
        rule,
    })
}

// The table of commands.
#[tactic(auto, unfolding(crate::specs::Command::opcode_of))]
pub fn shape_of(code: u64) -> Option<Shape>
    ensures { result ≡ shape_of (opcode_of code) }
{
    match code {
        code::ADD => row(Operand::Signed(0), 2, true, 0),
        code::SUB => row(Operand::Signed(0), 2, true, 1),
        code::POP => row(Operand::Signed(0), 1, false, 2),
        code::OUTPUT => row(Operand::Signed(0), 1, true, 3),
        code::PUSH => row(Operand::Signed(8), 0, true, 4),
        code::LOAD => row(Operand::Signed(0), 2, true, 5),
        code::STORE => row(Operand::Signed(0), 3, true, 6),
        code::JUMP => row(Operand::Signed(0), 1, false, 7),
        code::BNZ => row(Operand::Signed(2), 1, false, 8),
        code::CALL => row(Operand::Signed(0), 1, true, 9),
        code::RET => row(Operand::Signed(0), 1, false, 10),
        code::OUTPUT_TO => row(Operand::Page, 1, true, 3),
        code::CALL_N => row(Operand::Counts, 1, true, 9),
        code::RET_V => row(Operand::Signed(0), 2, true, 11),
        _ => None,
    }
}

// The name that the table gives a code; 0, with no letters, where there is none. Each row is written out, so that the compiler makes a
// table of them: by a function for a row it jumped to each, and a list of names took 2.6 times as long, measured.
#[tactic(auto, unfolding(crate::specs::Command::opcode_of, crate::specs::Name::packed, word::specs::Digits::value_of))]
pub fn name_of(code: u64) -> Name
    ensures { result ≡ name_of (opcode_of code) }
{
    match code {
        code::ADD => Name {
            word: names::ADD,
            length: 3,
        },
        code::SUB => Name {
            word: names::SUB,
            length: 3,
        },
        code::POP => Name {
            word: names::POP,
            length: 3,
        },
        code::OUTPUT => Name {
            word: names::OUTPUT,
            length: 6,
        },
        code::PUSH => Name {
            word: names::PUSH,
            length: 4,
        },
        code::LOAD => Name {
            word: names::LOAD,
            length: 4,
        },
        code::STORE => Name {
            word: names::STORE,
            length: 5,
        },
        code::JUMP => Name {
            word: names::JUMP,
            length: 4,
        },
        code::BNZ => Name {
            word: names::BNZ,
            length: 3,
        },
        code::CALL => Name {
            word: names::CALL,
            length: 4,
        },
        code::RET => Name {
            word: names::RET,
            length: 3,
        },
        code::OUTPUT_TO => Name {
            word: names::OUTPUT_TO,
            length: 8,
        },
        code::CALL_N => Name {
            word: names::CALL_N,
            length: 5,
        },
        code::RET_V => Name {
            word: names::RET_V,
            length: 4,
        },
        _ => Name { word: 0, length: 0 },
    }
}

// The code of a name's word; 0 where no command has that name. It is guessed, and the guess is tested: sooner done than ten tests.
pub fn code_of(word: u64) -> u64
    ensures { result ≡ code_named word }
{
    let guess = names::GUESSES[((word / 256 + word / 32768) % 32) as usize];
    if name_of(guess).word == word {
        guess
    } else {
        0
    }
}

// Pages are 0 to 15.
fn is_page(number: i64) -> bool
    ensures { result ≡ is_page number }
{
    0 <= number && number < 16
}

// How many arguments an operand word of two counts says; of a negative word none. So the results.
pub fn arguments_of(word: i64) -> u64
    ensures { result ≡ arguments_of word }
{
    word::number::unsigned(word).map_or(0, |n| n / 16)
}

// How many results it says.
pub fn results_of(word: i64) -> u64
    ensures { result ≡ results_of word }
{
    word::number::unsigned(word).map_or(0, |n| n % 16)
}

// The operand word of two counts: 16 for each argument, and the results; -1, as in the definition, where one of the two is out of range.
pub fn counts(arguments: i64, results: i64) -> i64
    ensures { result ≡ counts_of arguments results }
{
    match (
        word::number::below(arguments, 16),
        word::number::below(results, 2),
    ) {
        (Some(a), Some(d)) => (16 * a + d) as i64,
        _ => -1,
    }
}

// Is it the word of two counts in range?
fn is_counts(word: i64) -> bool
    ensures { result ≡ is_counts word }
{
    word::number::below(word, 256).is_some_and(|n| n % 16 < 2)
}

// Is a number in the range of a code's operand? No number is where there is no operand.
pub fn takes(code: u64, number: i64) -> bool
    ensures { result ≡ takes_of (opcode_of code) number }
{
    let Some(shape) = shape_of(code) else {
        return false;
    };
    match shape.operand {
        Operand::Page => is_page(number),
        Operand::Counts => is_counts(number),
        Operand::Signed(8) => true,
        Operand::Signed(2) => -32768 <= number && number < 32768,
        Operand::Signed(_) => false,
    }
}

// May a command of this shape have this operand? A page is 0 to 15; so are arguments, and results are 0 or 1.
fn permits(shape: Option<Shape>, operand: i64) -> bool
    ensures { result ≡ permits_of shape operand }
{
    let Some(shape) = shape else {
        return true;
    };
    match shape.operand {
        Operand::Signed(_) => true,
        Operand::Page => is_page(operand),
        Operand::Counts => is_counts(operand),
    }
}

// The number of the check that refuses it, where it may not.
fn check_of(shape: Option<Shape>) -> u64
    ensures { result ≡ refuses_of shape }
{
    let Some(shape) = shape else {
        return 12;
    };
    match shape.operand {
        Operand::Signed(_) | Operand::Page => 12,
        Operand::Counts => 14,
    }
}

// The number of the check that refuses bytes where there is no command.
fn check_for(fault: Fault) -> u64
    ensures { result ≡ faults_of fault }
{
    match fault {
        Fault::Unknown => 2,
        Fault::Cut => 3,
    }
}

// A field read as an operand that ends at `next`. No `Option` here and below: by one `check` and `write` took more instructions, measured.
fn with_field(field: Option<i64>, next: usize) -> Result<(i64, usize), Fault>
    ensures { result ≡ fetch_field field next }
{
    Ok((field.ok_or(Fault::Cut)?, next))
}

// A page as an operand: its byte is looked at here, where it costs least, so that the compiler puts `fetch` into its callers.
fn page_at(bytes: &[u8], at: usize) -> Result<(i64, usize), Fault>
    ensures { result ≡ fetch_field (unsigned_at 1 bytes.now at) (at + 1) }
{
    let page = *bytes.get(at).ok_or(Fault::Cut)?;
    Ok((page as i64, at + 1))
}

// Two counts as an operand, likewise: by one test, for two are more than the compiler puts into the callers.
fn counts_at(bytes: &[u8], at: usize) -> Result<(i64, usize), Fault>
    requires { at ≤ length bytes.now }
    ensures { result ≡ fetch_field (operand_at Counts bytes.now at) (at + 2) }
{
    let results = *bytes.get(at + 1).ok_or(Fault::Cut)?;
    Ok((counts(bytes[at] as i64, results as i64), at + 2))
}

// A signed number of eight bytes at an offset, by its halves, of which the compiler makes one word before it decides where `fetch` goes;
// eight bytes one by one, as `word::field::signed_at::<i64>` reads them, are too many to it.
fn long_at(bytes: &[u8], at: usize) -> Option<i64>
    requires { at ≤ length bytes.now }
    ensures { result ≡ signed_at 8 bytes.now at }
{
    if bytes.len() - at < 8 {
        return None;
    }
    let low = word::field::u32_at(bytes, at)? as u64;
    let high = word::field::u32_at(bytes, at + 4)? as u64;
    Some((low + 4294967296 * high).cast_signed())
}

// The command at a position, whatever its operand; beyond the end it is unknown.
pub fn command_at(bytes: &[u8], at: usize) -> Result<(i64, usize), Fault>
    ensures { result ≡ fetch_of bytes.now at }
{
    let byte = *bytes.get(at).ok_or(Fault::Unknown)?;
    fetch(bytes, at, shape_of(byte as u64))
}

// The command at a position within the bytes, by its code's shape.
fn fetch(bytes: &[u8], at: usize, shape: Option<Shape>) -> Result<(i64, usize), Fault>
    requires { (at < length bytes.now) × (shape ≡ shape_of (opcode_of (get_or bytes.now at 0))) }
    ensures { result ≡ fetch_of bytes.now at }
{
    let shape = shape.ok_or(Fault::Unknown)?;
    let next = at + 1;
    match shape.operand {
        Operand::Page => page_at(bytes, next),
        Operand::Counts => counts_at(bytes, next),
        Operand::Signed(8) => with_field(long_at(bytes, next), next + 8),
        Operand::Signed(2) => with_field(word::field::signed_at::<i16>(bytes, next), next + 2),
        Operand::Signed(_) => Ok((0, next)),
    }
}

// How many bytes an operand has.
pub fn width_of(operand: Operand) -> usize
    ensures { result ≡ width operand }
{
    match operand {
        Operand::Signed(width) => width,
        Operand::Page => 1,
        Operand::Counts => 2,
    }
}

// The number whose lowest bytes are an operand's: of two counts the arguments in the lower byte, the results in the upper.
fn field_of(kind: Operand, operand: i64) -> i64
    ensures { result ≡ field_of kind operand }
{
    match kind {
        Operand::Signed(_) | Operand::Page => operand,
        Operand::Counts => { (arguments_of(operand) % 256 + 256 * results_of(operand)) as i64 }
    }
}

// Writes a command as bytes, if there is room: its code and its operand, which is cut to its lowest bits where its bytes do not hold
// it. An unknown code is no command and has no bytes.
pub fn put(code: u64, operand: i64, out: &mut [u8], at: usize) -> Option<usize>
    ensures answer { result ≡ put_answer at (encode_code (opcode_of code) operand) out.old }
    ensures written { out.new ≡ put_out at (encode_code (opcode_of code) operand) out.old }
{
    let Some(shape) = shape_of(code) else {
        return if out.len() < at { None } else { Some(at) };
    };
    let kind = shape.operand;
    let width = width_of(kind);
    let field = field_of(kind, operand);
    if out.len() <= at || out.len() - at <= width {
        return None;
    }
    out[at] = code as u8;
    match width {
        8 => word::field::put::<i64>(field, out, at + 1),
        2 => word::field::put::<i16>(field, out, at + 1),
        1 => word::field::put::<u8>(field, out, at + 1),
        _ => Some(at + 1),
    }
}

// Checks 1 to 3, 12 and 14 over any bytes: each command from the left.
pub fn check(bytes: &[u8]) -> Result<usize, Refusal>
    ensures { result ≡ check_answer (decode bytes.now) }
{
    let mut at: usize = 0;
    let mut count: usize = 0;
    // commands differ in length
    while at < bytes.len() {
        if count == 4096 {
            return Err(Refusal::new(1, at));
        }
        let shape = shape_of(bytes[at] as u64);
        let (operand, next) = fetch(bytes, at, shape).map_err(|fault| Refusal::new(
            check_for(fault),
            at,
        ))?;
        if !permits(shape, operand) {
            return Err(Refusal::new(check_of(shape), at));
        }
        at = next;
        count += 1;
    }
    Ok(count)
}

// Writes a program into a space without a check: its commands from the left, as far as they can be read and as there is room.
pub fn write(bytes: &[u8], space: &mut [i64])
    ensures { space.new ≡ write_space bytes.now space.old }
{
    // no `for`: both go on by what is read
    let mut at: usize = 0;
    let mut i: usize = 0;
    while at < bytes.len() {
        if space.len() - i < 2 {
            return;
        }
        let code = bytes[at];
        let Ok((operand, next)) = fetch(bytes, at, shape_of(code as u64)) else {
            return;
        };
        space[i] = code as i64;
        space[i + 1] = operand;
        i += 2;
        at = next;
    }
}
