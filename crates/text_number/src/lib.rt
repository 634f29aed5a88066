// Reads one digit.
#![tactic(auto)]

ghost use Rattle.std.specs.Prelude.{◌≡◌, ◌<◌, MatchOption};
ghost use Rattle.text_number.specs.Digits.{hexadecimal};

// What a hexadecimal digit stands for, the letters in lower case alone: no capitals, which `to_digit` of a char takes too.
#[tactic(auto, using(std::proofs::lemmas::Bool::Decides::nat_tests), unfolding(crate::specs::Digits::hexadecimal))]
pub fn digit_of(b: u8) -> Option<u64>
    ensures { MatchOption result (hexadecimal b ≡ 16) (λ d. (d < 16) × (hexadecimal b ≡ d)) }
{
    match b {
        b'0'..=b'9' => Some(u64::from(b - b'0')),
        b'a'..=b'f' => Some(u64::from(b - b'a' + 10)),
        _ => None,
    }
}
