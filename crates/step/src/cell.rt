// Cells, which an address alone reaches: the label of one, its number, and writing both. Read specs/Cell.antt first.
ghost use Rattle.std.specs.Prelude.{◌≡◌};
ghost use Rattle.step.specs.Lent.{cells_of, cells_in, SameCells};
ghost use Rattle.step.specs.Cell.{cell_at, is_cell, label_of, number_of, written};

use label::Label;
use word::kind::Address;

// The lent cells: a run of numbers and a run of labels, as C lends them.
#[derive(Drop)]
pub struct CellRuns<'a> {
    pub values: &'a mut [i64],
    pub labels: &'a mut [i64],
}

// The same two runs, only to be read.
#[derive(Clone, Copy)]
pub struct CellWords<'a> {
    pub values: &'a [i64],
    pub labels: &'a [i64],
}

impl CellWords<'_> {
    // The label of the cell at an address.
    pub fn label_at(self, address: Address) -> Option<Label>
        ensures { result ≡ label_of (cells_in self.entry) (cell_at address.0 self.entry.values.now) }
    {
        let i = address.index(self.values.len())?;
        Some(Label::low(word::memory::at(self.labels, i)))
    }
}

// The number of the cell at an address: its label is not looked at.
pub fn number_at(address: Address, values: &[i64]) -> Option<i64>
    ensures { result ≡ number_of values.now (cell_at address.0 values.now) }
{
    let i = address.index(values.len())?;
    Some(word::memory::at(values, i))
}

impl CellRuns<'_> {
    // What they hold.
    pub fn words(&self) -> CellWords<'_>
        ensures { cells_in result ≡ cells_of self.now }
    {
        CellWords {
            values: self.values,
            labels: self.labels,
        }
    }

    // Writes a number and its label to the cell at an address, if there is one.
    pub fn write(&mut self, address: Address, number: i64, label: Label) -> bool
        ensures same_cells { SameCells self.new self.old }
        ensures answer { result ≡ is_cell (cell_at address.0 (cells_of self.old).values) }
        ensures cells { cells_of self.new
            ≡ written number label.0 (cells_of self.old) (cell_at address.0 (cells_of self.old).values) }
    {
        let Some(i) = address.index(self.values.len()) else {
            return false;
        };
        word::memory::put(self.values, i, number);
        word::memory::put(self.labels, i, i64::from(label));
        true
    }
}
