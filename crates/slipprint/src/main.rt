// The program: seals what its arguments say under the keys on standard input, and writes the slip into a new file. Here: a good slip.
#![tactic(auto)]

fn main(rt: HostRuntime) {
    tool::run::<tool::Slipprint>(&rt);
}
