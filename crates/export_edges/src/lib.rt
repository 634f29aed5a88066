// The number that answers for edges which are put: how many they are, or a refusal.
#![tactic(auto)]

ghost use Rattle.std.specs.Prelude.{◌≡◌};
ghost use Rattle.export_edges.specs.EdgesTold.{number_said, put_told, edges_told};

use export_word::refusal_word;

// What became of edges: how many are put, or the number of the refusal.
pub fn put_word(put: Result<usize, u8>) -> u32
    ensures { result ≡ put_told (number_said put) }
{
    match put {
        Ok(n) => (n % 4294967296) as u32,
        Err(number) => refusal_word(number, 0),
    }
}

// What became of a text's edges: a refusal of the text, if there is one; else what became of the edges.
pub fn edges_word(number: u8, line: u64, put: Result<usize, u8>) -> u32
    ensures { result ≡ edges_told number line (number_said put) }
{
    if number != 0 {
        return refusal_word(number, line);
    }
    put_word(put)
}
