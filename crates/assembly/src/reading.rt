// Reading a text, line by line, into a space of its own.
ghost use Rattle.std.specs.Prelude.{◌≡◌, length};
ghost use Rattle.assembly.specs.Assembly.{assembled};
ghost use Rattle.assembly.specs.Space.{Roomy, measured, Holding};

use crate::line::{Fault, line_at};
use crate::refused;
use program::Refusal;

// Reads a text into a space that has room for nine bytes a line: how long its sheet is, or the first line that is refused.
pub(crate) fn read(text: &[u8], space: &mut [u8]) -> Result<usize, Refusal>
    requires { Roomy text.now (length space.old) }
    ensures answer { result ≡ measured (assembled text.now) }
    ensures written { Holding (assembled text.now) space.old space.new }
{
    let mut at: usize = 0;
    let mut count: usize = 0;
    let mut size: usize = 0;
    // lines differ in length
    while at < text.len() {
        if count == 4096 {
            return refused(1, 4097);
        }
        match line_at(text, at) {
            Err(Fault::Malformed) => return refused(10, count + 1),
            Err(Fault::Outside) => return refused(11, count + 1),
            Ok(line) => {
                program::put(line.code, line.operand, space, size);
                size += line.bytes;
                count += 1;
                at = line.next;
            }
        }
    }
    Ok(size)
}
