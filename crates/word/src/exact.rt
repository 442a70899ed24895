// The sheet's arithmetic: whole-number sums and differences of words, where these are words again. Nothing here wraps; the kernel's
// arithmetic does (wrap.rt). Read specs/Exact.antt first.
ghost use Rattle.std.specs.Prelude.{◌≡◌, ◌+ℤ◌, ◌-ℤ◌};
ghost use Rattle.word.specs.Exact.{exactly};

// Add of a sheet. By the sign of b only one end can be passed, and the bound that a is compared with is a word. Not by `checked_add`, whose
// test takes 1.2 to 1.5 of the time on a sheet of sums, measured.
pub fn add(a: i64, b: i64) -> Option<i64>
    ensures { result ≡ exactly (a +ℤ b) }
{
    if b < 0 {
        if a < i64::MIN - b {
            return None;
        }
        return Some(a + b);
    }
    if i64::MAX - b < a {
        return None;
    }
    Some(a + b)
}

// Sub of a sheet, in the same way.
pub fn sub(a: i64, b: i64) -> Option<i64>
    ensures { result ≡ exactly (a -ℤ b) }
{
    if b < 0 {
        if i64::MAX + b < a {
            return None;
        }
        return Some(a - b);
    }
    if a < i64::MIN + b {
        return None;
    }
    Some(a - b)
}
