// Two of the three kinds of document 01 that never stand in for one another: command numbers and cell addresses.
// Each is a type, so that none is taken for another; one generic `index` over both would be longer than the two lines that it saves. The third
// kind, labels, is a crate of its own.
ghost use Rattle.std.specs.Prelude.{◌≡◌};
ghost use Rattle.word.specs.Wrap.{add_wrap};
ghost use Rattle.word.specs.Number.{index_of};

// A command number of document 01, as the place is one. A program can compute any, so it may lie outside the sheet.
#[derive(Clone, Copy, PartialEq, Eq, Debug)]
pub struct Pc(pub i64);

impl Pc {
    // The command so many further on, or back. From a place of a sheet, by 1 or by a Bnz's operand, the sum never wraps.
    pub fn offset(self, by: i64) -> Pc
        ensures { result.0 ≡ add_wrap self.0 by }
    {
        Pc(crate::wrap::add(self.0, by))
    }

    // Where in a sheet of so many commands it stands.
    pub fn index(self, commands: usize) -> Option<usize>
        ensures { result ≡ index_of self.0 commands }
    {
        crate::number::below(self.0, commands)
    }
}

// A cell address of document 01. A program can compute any, so it may lie outside the cells.
#[derive(Clone, Copy, PartialEq, Eq, Debug)]
pub struct Address(pub i64);

impl Address {
    // Which of so many cells it names.
    pub fn index(self, cells: usize) -> Option<usize>
        ensures { result ≡ index_of self.0 cells }
    {
        crate::number::below(self.0, cells)
    }
}
