// The program: checks the certificate in a file under its tag, with the keys on standard input. Here: a good certificate.
#![tactic(auto)]

fn main(rt: HostRuntime) {
    tool::run::<tool::Certcheck>(&rt);
}
