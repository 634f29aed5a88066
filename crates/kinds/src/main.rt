// Prints the table of kinds on standard output: which letters can hold between two kinds of statement (Req 05). The gate runs it and
// compares what it prints with the file `stdout`.
//
// Proved: whatever `show` is called with is the table. Seen in these lines, and by the gate's run: that it is called, once, that it writes what it
// is given, and that nothing else writes to standard output. What becomes of what is handed to the system, no contract says.
#![tactic(auto)]

ghost use Rattle.spec_kinds.specs.Table.{KindTable};

use std::io::Write;

// Hands the table to standard output. Nothing else can be handed over: a caller has to show that it is the table.
fn show(rt: &HostRuntime, table: &[u8])
    requires { KindTable table.now }
{
    if rt.stdout().write_all(table).is_err() {
        let _ = rt.stderr().write_all(b"not all written\n");
    }
}

fn main(rt: HostRuntime) {
    let table = kind_print::table();
    show(&rt, &table);
}
