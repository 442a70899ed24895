// The machine of document 01, as definitions and theorems; its code is two types. Read in specs/: Atom, Rule, State,
// Environment, Step, Run; then Claim, End, Page and Clearance.
#![tactic(auto)]

ghost use Rattle.std.specs.Prelude.{◌≡◌};
ghost use Rattle.machine.specs.State.{stop_number};

// What a line is: the number of an Output, or the end of the page. What the definitions speak of, and the engines write.
#[derive(Clone, Copy, PartialEq, Eq, Debug)]
pub enum Kind {
    Number,
    End,
}

// Why a run stops, in the order in which the reasons are tested.
#[derive(Clone, Copy, PartialEq, Eq, Debug)]
pub enum Stop {
    End,
    FuelSpent,
    PcOutside,
    ValueMissing,
    FrameMissing,
    WrongReturn,
    AddressOutside,
    Denial,
    NotCleared,
    Overflow,
    StackFull,
    OutputFull,
}

impl Stop {
    // Its number, as documents name it and C and the page get it.
    pub fn number(self) -> u64
        ensures { result ≡ stop_number self }
    {
        match self {
            Stop::End => 0,
            Stop::FuelSpent => 1,
            Stop::PcOutside => 2,
            Stop::ValueMissing => 3,
            Stop::FrameMissing => 4,
            Stop::AddressOutside => 5,
            Stop::Denial => 6,
            Stop::StackFull => 7,
            Stop::OutputFull => 8,
            Stop::Overflow => 9,
            Stop::NotCleared => 10,
            Stop::WrongReturn => 11,
        }
    }
}
