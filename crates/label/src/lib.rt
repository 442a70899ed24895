// Labels: sets of principals (document 01: owners). Read specs/Label.antt first.
#![tactic(auto)]

ghost use Rattle.std.specs.Prelude.{◌≡◌, pos};
ghost use Rattle.std.specs.Result.{result_ok};
ghost use Rattle.label.specs.Label as Labels;
ghost use Rattle.label.specs.Word.{stored, low_label};

// A label of document 01: bit i is principal i.
#[derive(Clone, Copy, Debug, PartialEq, Eq)]
pub struct Label(pub u32);

impl Label {
    // The empty label.
    pub const EMPTY: Label = Label(0);

    // The union of the two sets.
    pub fn join(self, other: Label) -> Label
        ensures { result.0 ≡ Labels.join self.0 other.0 }
    {
        Label(self.0 | other.0)
    }

    // Is this set a subset of the other?
    pub fn flows(self, other: Label) -> bool
        ensures { result ≡ Labels.flows self.0 other.0 }
    {
        (self.0 | other.0) == other.0
    }

    // The label in a word that is known to store one: the lowest bits, with no test.
    pub fn low(word: i64) -> Label
        ensures { result.0 ≡ low_label word }
    {
        Label((word::wrap::to_bits(word) % 4294967296) as u32)
    }
}

impl From<Label> for i64 {
    ghost from_gives = { λ label word. word ≡ pos label.0 };

    // The word that stores this label.
    fn from(label: Label) -> i64 {
        i64::from(label.0)
    }
}

// What a word stores that is outside 0 to 2^32 - 1.
#[derive(Clone, Copy, Debug, PartialEq, Eq)]
pub struct NoLabel;

impl TryFrom<i64> for Label {
    type Error = NoLabel;

    ghost try_from_gives = { λ word label. result_ok label ≡ stored word };

    // The label that a word stores, if it is one.
    fn try_from(word: i64) -> Result<Label, NoLabel> {
        match u32::try_from(word) {
            Ok(n) => Ok(Label(n)),
            Err(_) => Err(NoLabel),
        }
    }
}
