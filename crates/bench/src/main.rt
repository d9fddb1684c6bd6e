// Answers a change list of the user's: standard input to standard output, at most 65,536 bytes each way. With more input, or a longer answer, it writes nothing.
#![tactic(auto)]

use std::rt::HostRuntime;

fn main(rt: HostRuntime) {
    console::answer(&rt);
}
