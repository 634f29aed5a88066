// The report of any text.
#![tactic(auto)]

ghost use Rattle.report_text.specs.Reported.{Reported};

use edge_word::PAIRS;
use place_row::{ROWS, TABLE_WORDS};
use report_print::Printed;
use value_tables::LINE_TABLE;
use walk_first::WALK_WORDS;

// Reads any text and answers the bytes of its report: of a refusal, or of the verdict, with its walk in an area of 65 steps.
pub fn report_of(text: &[u8]) -> Printed
    ensures { Reported text.now result }
{
    let mut state = [0u64; line_state::WORDS];
    let mut lines = [0u64; LINE_TABLE];
    let mut places = [0u64; ROWS];
    let mut rows = [0u64; TABLE_WORDS];
    let mut work = [0u64; TABLE_WORDS];
    let mut forwards = [0u64; PAIRS];
    let mut backs = [0u64; PAIRS];
    let mut area = [0u64; WALK_WORDS];
    let told = verdict_of::text_verdict(
        text,
        &mut state,
        &mut lines,
        &mut places,
        &mut rows,
        &mut work,
        &mut forwards,
        &mut backs,
        &mut area,
    );
    match told {
        Ok(v) => report_print::verdict_printed(Ok(v), &area),
        Err(r) => report_print::refusal_printed(u64::from(r.fault.number()), r.line),
    }
}
