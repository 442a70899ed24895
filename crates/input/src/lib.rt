// Standard input into a space of fixed length, for the programs.
#![tactic(auto)]

ghost use Rattle.std.specs.Prelude.{ℕ, ◌≤◌, ◌<◌, length, take, IfOk, IfErr};
ghost use Rattle.std.specs.Io.KnownBytes.{Consumes, IsAtEnd};

use std::io::{self, Read};

// Reads until the space is full or the input ends, and returns how many bytes it put at the start of the space: the next ones of the
// reader, all that are left where they are fewer than the space takes. Where a read fails, the space begins with what was read before.
pub fn read_full<R: Read>(from: &mut R, space: &mut [u8]) -> io::Result<usize>
    ensures within { IfOk result (λ n. n ≤ length space.new) }
    ensures read { IfOk result (λ n. Consumes (R.remaining from.old) (R.remaining from.new) (take n space.new)) }
    ensures end { IfOk result (λ n. n < length space.new → IsAtEnd (R.remaining from.new)) }
    ensures failed { IfErr result (λ e. (n : ℕ) × (n ≤ length space.new)
        × Consumes (R.remaining from.old) (R.remaining from.new) (take n space.new)) }
{
    let mut done: usize = 0;
    // a read may give fewer bytes than it has room for
    while done < space.len() {
        let n = from.read(&mut space[done..])?;
        if n == 0 {
            break;
        }
        done += n;
    }
    Ok(done)
}
