// Replays a recorded session: `stdin` is a change list, `stdout` what the Rust answered to it through the oracle. Both have 65,536 bytes, the most there may be.
#![tactic(auto)]

use std::rt::HostRuntime;

fn main(rt: HostRuntime) {
    console::answer(&rt);
}
