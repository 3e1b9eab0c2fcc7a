// The program on 64000 bytes: a program of its own, as each has one input.
#![tactic(auto)]

fn main(rt: HostRuntime) {
    program::run(&rt);
}
