// Why a text or a workload value is refused: what is answered in place of a value. The rules number the refusals; callers in other languages and
// reports are told the number.
#![tactic(auto)]

ghost use Rattle.std.specs.Prelude.{◌≡◌};
ghost use Rattle.refusal.specs.Numbers.{number_of};

// The rule that is broken, in the order of the numbers.
#[derive(Clone, Copy, Debug, PartialEq, Eq)]
pub enum Fault {
    // 1: the text is too long.
    Length,
    // 2: a byte that no text has, or no line's end at the end.
    Bytes,
    // 3: the first line is not the names line.
    Names,
    // 4: a line is no value line.
    Fields,
    // 5: sets are against the rules.
    Sets,
    // 6: an id is out of count, or what is named is not there.
    Ids,
    // 7: a line is out of order, or a block is left open.
    Order,
    // 8: a link is against the rules.
    Link,
    // 9: a bound is passed.
    Bound,
    // 20: the lent area is too short.
    Area,
    // 21: no accepted text gives the value.
    NotGiven,
    // 22: there are too many unfoldings, or too many statements in them.
    Unfoldings,
}

impl Fault {
    // The number that the rules give it.
    pub fn number(self) -> u8
        ensures { result ≡ number_of self }
    {
        match self {
            Fault::Length => 1,
            Fault::Bytes => 2,
            Fault::Names => 3,
            Fault::Fields => 4,
            Fault::Sets => 5,
            Fault::Ids => 6,
            Fault::Order => 7,
            Fault::Link => 8,
            Fault::Bound => 9,
            Fault::Area => 20,
            Fault::NotGiven => 21,
            Fault::Unfoldings => 22,
        }
    }

    // The refusal with this fault at a line.
    pub fn at(self, line: u64) -> Refusal
        ensures { result ≡ record { fault = self; line = line } }
    {
        Refusal { fault: self, line }
    }
}

// The refusal of a text: its fault and the line where it stands, 0 where it is of the whole.
#[derive(Clone, Copy, Debug, PartialEq, Eq)]
pub struct Refusal {
    pub fault: Fault,
    pub line: u64,
}
