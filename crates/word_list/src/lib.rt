// A word of a list of words, whatever its place; words set to 0; a bit of a word.
#![tactic(auto)]

ghost use Rattle.std.specs.Prelude.{◌≡◌, get_or};
ghost use Rattle.spec_base.specs.Basic.{has};
ghost use Rattle.word_list.specs.Clear.{Cleared};

// The word at a place, or 0 past the end.
pub fn word_at(words: &[u64], i: usize) -> u64
    ensures { result ≡ get_or words.now i 0 }
{
    words.get(i).copied().unwrap_or(0)
}

// Sets the words from one to another to 0, as far as there are words.
pub fn clear(words: &mut [u64], from: usize, to: usize)
    ensures { Cleared from to words.old words.new }
{
    let end = to.min(words.len());
    if from < end {
        words[from..end].fill(0);
    }
}

// Whether a word, taken as a set, has bit k. No word has a bit past the 63rd.
pub fn has_bit(word: u64, k: u64) -> bool
    ensures { result ≡ has word k }
{
    if k > 63 {
        return false;
    }
    (word >> k) % 2 == 1
}
