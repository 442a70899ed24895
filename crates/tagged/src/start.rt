// The tag engine's own limits. Nothing is written here. Read specs/Start.antt first.
ghost use Rattle.std.specs.Prelude.{◌≡◌};
ghost use Rattle.policy.specs.Read.{read_table};
ghost use Rattle.tagged.specs.Start.{found_of};

use engine::start::{Own, kept_if};
use policy::row::Cache;

// What is found of the rules before a run: the limits that they keep or break, and the length of their handler, in commands.
#[derive(Clone, Copy)]
pub(crate) struct Found {
    pub own: Own,
    pub size: usize,
}

// Check 6, its place the offset of the first byte at fault; check 7, place 0; and, for a handler space of so many words, 8 at place 3
// where it is too short. The table's bytes are checked once; what is no table has no handler.
pub(crate) fn rules(table: &[u8], cache: Cache, words: usize) -> Found
    ensures { result ≡ found_of (read_table table.now) cache.words words }
{
    let seen = tables::row::inspect(table, cache);
    let row = kept_if(seen.row, 7, 0);
    let size = if seen.table.is_ok() {
        translator::instructions(table)
    } else {
        0
    };
    let own = Own {
        rules: seen.table,
        row,
        handler: kept_if(size <= words / 2, 8, 3),
    };
    Found { own, size }
}
