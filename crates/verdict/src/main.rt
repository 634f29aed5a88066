// Reads a workload text from standard input and prints its report on standard output. The gate runs it on a robust text.
#![tactic(auto)]

fn main(rt: HostRuntime) {
    verdict_run::answer_input(&rt);
}
