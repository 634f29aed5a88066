// S21 decided: whether some accepted text gives a workload value.
#![tactic(auto)]

ghost use Rattle.std.specs.Prelude.{◌≡◌, ◌≤◌, length};
ghost use Rattle.spec_text.specs.Value.{lines_of};
ghost use Rattle.value_given.specs.Decided.{Decided};
ghost use Rattle.value_given.specs.Decide.{Stepped, Measured};

use spec_text::{Line, Workload};

// Takes the line, if it fits and passes its tests: the bytes that it is written with.
fn step(words: &mut [u64; line_state::WORDS], l: Line) -> Option<u64>
    ensures { Stepped words.old l result words.new }
{
    let size = value_length::line_size(l)?;
    match line_rules::take_tested(words, l) {
        Ok(()) => Some(size),
        Err(_) => None,
    }
}

// The bytes of the lines' text; none where a line does not fit or has a fault, or a block is open at the end. The names line and its
// line end are 34 bytes.
fn text_size(w: Workload) -> Option<u64>
    requires { (length w.lines ≡ 1616) × (w.count ≤ 1616) }
    ensures { Measured (lines_of w) result }
{
    let mut words = [0u64; line_state::WORDS];
    line_rules::start(&mut words);
    let mut size: u64 = 34;
    for l in &w.lines[..w.count] {
        size += step(&mut words, *l)?;
    }
    if line_rules::depth(&words) != 0 {
        return None;
    }
    Some(size)
}

// Whether some accepted text gives the value.
pub fn is_given(w: Workload) -> bool
    ensures { Decided w result }
{
    let count = w.count;
    if spec_text::CELLS < count {
        return false;
    }
    if !value_cells::rest_empty(w) {
        return false;
    }
    let Some(size) = text_size(w) else {
        return false;
    };
    size <= spec_text::TEXT_BYTES as u64
}
