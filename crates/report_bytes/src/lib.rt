// The bytes that a report chooses by a number: a digit, and the letter of a flow.
#![tactic(auto)]

ghost use Rattle.std.specs.Prelude.{◌≡◌, ◌%◌};
ghost use Rattle.spec_text.specs.Text.{digit};
ghost use Rattle.spec_report.specs.Report.{flow_letter};
ghost use Rattle.report_bytes.specs.Bytes.{flow_of};

// The byte of a number's last decimal digit.
#[tactic(auto, using(crate::specs::Bytes::last_digit))]
pub fn digit_byte(n: u64) -> u8
    ensures { result ≡ digit (n % 10) }
{
    b'0' + (n % 10) as u8
}

// The letter of a flow's word: f for 0, else b.
#[tactic(auto, using(crate::specs::Bytes::letter_forward, crate::specs::Bytes::letter_back))]
pub fn flow_letter(word: u64) -> u8
    ensures { result ≡ flow_letter (flow_of word) }
{
    if word == 0 { b'f' } else { b'b' }
}
