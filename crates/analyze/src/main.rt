// The program: a table on standard input, its answer on standard output.
#![tactic(auto)]

fn main(rt: HostRuntime) {
    program::run(&rt);
}
