// Words of lent memory, read and written at any position: outside there is 0, and nothing is stored there.
ghost use Rattle.std.specs.Prelude.{◌≡◌, pos, slice_index_or, slice_set};

// The word at an index; 0 beyond the end.
pub fn at(memory: &[i64], i: usize) -> i64
    ensures { result ≡ slice_index_or memory.now i (pos 0) }
{
    memory.get(i).copied().unwrap_or(0)
}

// Stores a word at an index; beyond the end nothing changes.
pub fn put(memory: &mut [i64], i: usize, word: i64)
    ensures { memory.new ≡ slice_set memory.old i word }
{
    // `get_mut` does not say what the slice ends as
    if i < memory.len() {
        memory[i] = word;
    }
}
