// What the programs share: arguments and files into lent areas. Which bytes the system gives, no contract can say; how many of them lie in an area,
// and which names are names of files, the contracts do.
#![tactic(auto)]

ghost use Rattle.std.specs.Prelude.{◌≤◌, length, IfSome, IsUtf8};

use std::env::{Env, FillError};
use std::fs::File;
use std::io::{Read, Write};

// The bytes of the area that a text is read into. It is longer than any text that is accepted: a text that fills it is refused, whatever follows.
pub const INPUT_BYTES: usize = 65536;

// The bytes of the area that an argument is read into.
pub const WORD_BYTES: usize = 4096;

// How many bytes an area takes of a file: until the file ends, the area is full or a read fails. It stays a loop: each read tells how far it came.
pub fn read_full<R: Read>(file: &mut R, area: &mut [u8]) -> usize
    ensures { result ≤ length area.new }
{
    let mut n: usize = 0;
    while n < area.len() {
        match file.read(&mut area[n..]) {
            Ok(0) | Err(_) => return n,
            Ok(k) => n += k,
        }
    }
    n
}

// The file of this name, opened for reading. One that cannot be opened is named on standard error. Bytes that are no text name none.
pub fn open_read(rt: &HostRuntime, path: &[u8]) -> Option<File>
    ensures { IfSome result (λ _. IsUtf8 path.now) }
{
    let Ok(name) = std::str::from_utf8(path) else {
        let _ = rt.stderr().write_all(path);
        let _ = rt.stderr().write_all(b": no name of a file\n");
        return None;
    };
    match std::fs::open(rt, name) {
        Ok(file) => Some(file),
        Err(e) => {
            let _ = eprintln!(rt; "{name}: {e}");
            None
        }
    }
}

// Argument i at the front of an area: how many bytes it has, none if it does not fit; or that there is none.
pub fn argument(rt: &HostRuntime, i: usize, area: &mut [u8]) -> Option<usize>
    ensures { IfSome result (λ n. n ≤ length area.new) }
{
    match rt.arg(i, area) {
        Ok(n) => Some(n),
        Err(FillError::TooLong) => Some(0),
        Err(FillError::NotPresent) => None,
    }
}
