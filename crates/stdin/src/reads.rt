// The reads of standard input. The fields of Received are private to this module, so that no other code can make up a read: an answer
// that a Received holds was put there by `more`, right after std's read gave it. That it is the system's answer, and which bytes came, stands in
// these lines alone and is tested (outside/): the contract of std's read ties neither to the input. A Received names no area: that all
// its reads went into one stands in `read_input`.
ghost use Rattle.std.specs.Prelude.{◌≡◌, length};
ghost use Rattle.stdin.specs.Reads.{nothing_read, Brought, ReadMore};

use std::io::{Read, Stdin};

// What was read so far: how many bytes, what the last read answered, and for how many bytes it was lent room.
#[derive(Clone, Copy)]
pub struct Received {
    count: usize,
    last: isize,
    room: usize,
}

// One read into the whole of an area: how many bytes it brought, none where it failed.
fn read_once(mut stdin: Stdin, area: &mut [u8]) -> Option<usize>
    ensures { Brought (length area.old) result }
{
    stdin.read(area).ok()
}

impl Received {
    // Before any read.
    pub fn nothing() -> Received
        ensures { result ≡ nothing_read }
    {
        Received {
            count: 0,
            last: 0,
            room: 0,
        }
    }

    pub fn count(self) -> usize
        ensures { result ≡ self.count }
    {
        self.count
    }

    pub fn last(self) -> isize
        ensures { result ≡ self.last }
    {
        self.last
    }

    // One read more, into the rest of the area after the bytes that are there; none where there is no rest.
    pub fn more(self, stdin: Stdin, area: &mut [u8]) -> Received
        ensures { ReadMore self area.old area.new result }
    {
        let n = self.count;
        if area.len() <= n {
            return self;
        }
        let room = area.len() - n;
        match read_once(stdin, &mut area[n..]) {
            Some(count) => Received {
                count: n + count,
                last: count as isize,
                room,
            },
            None => Received {
                count: n,
                last: -1,
                room,
            },
        }
    }
}
