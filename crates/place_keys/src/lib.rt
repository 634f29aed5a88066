// Which keys shield a place, by the links in the table of lines.
#![tactic(auto)]

ghost use Rattle.std.specs.Prelude.{◌≡◌, ◌-◌, ◌/◌, ◌<◌, length};
ghost use Rattle.place_keys.specs.LineKeys.{key_at, place_keys};

use place_row::FAR;
use value_tables::{ID, LI, LINE_WORDS, PR, REL, TO};
use word_list::{has_bit, word_at};

// A line's part in the keys of a child: a `li` line of this child adds its key where its parent is in the word: of what is seen, or of what is
// marked.
#[tactic(auto, using(crate::proofs::KeyLaws::line_steps))]
fn key_at(lines: &[u64], i: usize, child: u64, parents: u64, word: u64) -> u64
    requires { i < length lines.now / 8 }
    ensures { result ≡ key_at lines.now i child parents word }
{
    let at = i * LINE_WORDS;
    if word_at(lines, at) != LI {
        return word;
    }
    if word_at(lines, at + REL) != child {
        return word;
    }
    if !has_bit(parents, word_at(lines, at + TO)) {
        return word;
    }
    let key = word_at(lines, at + ID);
    if key > 31 {
        return word;
    }
    word | 1u64 << key
}

// The keys that shield a place, as the word of a row, from the links of its program, which stand from line `first` up to the next `pr`. An edge that
// leaves the place is shielded by a parent that is seen there, one that enters it by a parent anywhere: by any that is marked. Most links are of
// other children: these are passed by first.
#[tactic(auto, using(crate::proofs::KeyLaws::key_steps))]
pub fn keys_from(lines: &[u64], first: usize, child: u64, seen: u64, marks: u64) -> u64
    ensures { result ≡ place_keys lines.now first child seen marks }
{
    let mut near: u64 = 0;
    let mut far: u64 = 0;
    for i in first..lines.len() / LINE_WORDS {
        if word_at(lines, i * LINE_WORDS) == PR {
            break;
        }
        if word_at(lines, i * LINE_WORDS + REL) != child {
            continue;
        }
        near = key_at(lines, i, child, seen, near);
        far = key_at(lines, i, child, marks, far);
    }
    near + far * FAR
}
