// The program: checks the one slip in a file under the keys on standard input, or runs the published vectors. Here: a good slip.
#![tactic(auto)]

fn main(rt: HostRuntime) {
    tool::run::<tool::Slipcheck>(&rt);
}
