// Sheets in text (request U3): a text is read into a sheet, and a sheet is listed as a text. Read specs/Assembly.antt first.
#![tactic(auto)]

mod line;
mod listing;
mod reading;

ghost use Rattle.std.specs.Prelude.{◌≡◌, ◌≤◌};
ghost use Rattle.assembly.specs.Assembly.{assembled, listed, answer, left};
ghost use Rattle.assembly.specs.Space.{Roomy, refused_at};

use program::Refusal;

// Reads a text into a sheet: its bytes from the start of `out` on, the rest as it came; nothing is written where it is refused.
pub fn assemble(text: &[u8], out: &mut [u8]) -> Result<usize, Refusal>
    ensures answer { result ≡ answer (assembled text.now) out.old }
    ensures written { out.new ≡ left (assembled text.now) out.old }
{
    // A line has at least three letters and its end. The shorter a space, the sooner it is there.
    if text.len() <= 223 {
        return through::<512>(text, out);
    }
    if text.len() <= 1819 {
        return through::<4096>(text, out);
    }
    through::<36864>(text, out)
}

// By a space with room for every line that can be read, as a line that is refused may be the last; the sheet is handed over if there is
// room.
fn through<const N: usize>(text: &[u8], out: &mut [u8]) -> Result<usize, Refusal>
    requires few { N ≤ 36864 }
    requires roomy { Roomy text.now N }
    ensures answer { result ≡ answer (assembled text.now) out.old }
    ensures written { out.new ≡ left (assembled text.now) out.old }
{
    let mut space = [0u8; N];
    let size = reading::read(text, &mut space)?;
    if out.len() < size {
        return refused(8, 4);
    }
    out[..size].copy_from_slice(&space[..size]);
    Ok(size)
}

// Lists a sheet as a text: from the start of `out` on, the rest as it came; nothing is written where it is refused.
pub fn list(sheet: &[u8], out: &mut [u8]) -> Result<usize, Refusal>
    ensures answer { result ≡ answer (listed sheet.now) out.old }
    ensures written { out.new ≡ left (listed sheet.now) out.old }
{
    let count = program::check(sheet)?;
    if listing::fits(sheet, count, out.len()) {
        Ok(listing::write(sheet, out))
    } else {
        refused(8, 4)
    }
}

// A refusal.
pub(crate) fn refused(code: u64, position: usize) -> Result<usize, Refusal>
    ensures { result ≡ refused_at code position }
{
    Err(Refusal { code, position })
}
