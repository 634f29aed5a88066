// Standard input into a lent area, and how reading it ended.
#![tactic(auto)]

pub mod reads;

ghost use Rattle.std.specs.Prelude.{length};
ghost use Rattle.stdin.specs.Ends.{Ends};

pub use reads::Received;
use std::io::Stdin;

// How reading ended, each time with the reads that were made: the input ended; the area is full; a read failed. An enum and no Result: of each of the
// three another thing is promised, and before a read that failed others may have brought bytes.
#[derive(Clone, Copy)]
pub enum Input {
    Ended(Received),
    Full(Received),
    Failed(Received),
}

// Reads into an area until the input ends, the area is full or a read fails, and tells these three apart: a text that is cut off at
// a line's end is a text too. A read that brings fewer bytes than it was lent room for is none of the three. What the area holds is the
// system's choice: reading's contract leaves every byte that it is lent free, so no promise on them could tell this function from a wrong one. It
// stays a loop: each read tells how far it came.
pub fn read_input(stdin: Stdin, area: &mut [u8]) -> Input
    ensures { Ends (length area.new) result }
{
    let mut received = Received::nothing();
    while received.count() < area.len() {
        received = received.more(stdin, area);
        let last = received.last();
        if last < 0 {
            return Input::Failed(received);
        }
        if last == 0 {
            return Input::Ended(received);
        }
    }
    Input::Full(received)
}
