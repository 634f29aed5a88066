// A line of a text, and a reader that remembers the place and the line number (text_fields reads by it).
#![tactic(auto)]

// Reads a text line after line: the text, the place of the next line, and its number.
#[derive(Clone, Copy)]
pub struct Reader<'a> {
    pub text: &'a [u8],
    pub place: usize,
    pub line: u64,
}

// A line of a text: where it starts and ends, the next place, and the number of the line after, which begins there.
#[derive(Clone, Copy)]
pub struct Span {
    pub start: usize,
    pub end: usize,
    pub next: usize,
    pub after: u64,
}
