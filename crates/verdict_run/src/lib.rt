// What the program `verdict` does: standard input is read into an area, and its report is handed to standard output. The program `verdict`
// calls this and nothing else; `inspect` calls it for the gate to run it on more texts.
//
// Proved: `show` is called only with a report of the text that was read, and never where a read failed. Seen in these lines and tested
// (outside/), since std's contracts tie no bytes to a stream: that `show` alone writes to standard output, that nothing here changes the
// area after it was read, which bytes a read puts there, that its answers are the system's, and what becomes of what a write is handed.
#![tactic(auto)]

ghost use Rattle.std.specs.Prelude.{◌≡◌, ◌<◌, length};
ghost use Rattle.stdin.specs.Ends.{Ends};
ghost use Rattle.verdict_run.specs.ShownReport.{Came, bytes_read, Shows};
ghost use Rattle.verdict_run.specs.Answered.{Answered};

use std::io::Write;
use stdin::Input;

// What became of an input, and how reading it ended: standard output took its whole report; it did not; there is no report, since a read failed. An
// enum and no Result: each of the three has how reading ended.
#[derive(Clone, Copy)]
pub enum Answer {
    Shown(Input),
    Cut(Input),
    Unread(Input),
}

// Hands a report to standard output. Only a report of the text that was read can be handed over: a caller has to show it.
fn show(rt: &HostRuntime, area: &[u8], read: Input, report: &[u8]) -> Answer
    requires { Shows area.now read report.now }
    ensures { Answered (length area.now) result }
{
    if rt.stdout().write_all(report).is_ok() {
        return Answer::Shown(read);
    }
    let _ = rt.stderr().write_all(b"the report could not be written\n");
    Answer::Cut(read)
}

// Shows the report of the bytes that were read. An area with no room for more is longer than any text that is accepted.
fn report_read(rt: &HostRuntime, area: &[u8], read: Input, n: usize) -> Answer
    requires in_bounds { 32768 < length area.now }
    requires ends { Ends (length area.now) read × Came read × (n ≡ bytes_read read) }
    ensures { Answered (length area.now) result }
{
    let report = report_text::report_of(&area[..n]);
    let bytes = report.as_bytes();
    show(rt, area, read, bytes)
}

fn answer_with(rt: &HostRuntime, area: &mut [u8]) -> Answer
    requires { 32768 < length area.old }
    ensures { Answered (length area.new) result }
{
    let read = stdin::read_input(rt.stdin(), area);
    match read {
        Input::Ended(received) => report_read(rt, area, read, received.count()),
        Input::Full(received) => report_read(rt, area, read, received.count()),
        Input::Failed(received) => {
            let _ = rt.stderr().write_all(b"the input could not be read\n");
            Answer::Unread(Input::Failed(received))
        }
    }
}

// The bytes of the area that standard input is read into. It is longer than any text that is accepted: a text that fills it is refused, whatever
// follows.
const INPUT_BYTES: usize = 65536;

// Reads standard input and shows its report.
pub fn answer_input(rt: &HostRuntime) -> Answer
    ensures { Answered 65536 result }
{
    let mut area = [0u8; INPUT_BYTES];
    answer_with(rt, &mut area)
}
