// Replays the unmarked samples at the hub's limits: one graph of one actor in tables of 4,096 changes and 16,384 edges, filled to the last change.
// Each line of the output has the sample's words and the number of the answer. A change's hash is its number in two bytes and zeros.
// The tables, which are written, are taken one by one: two `&mut` of one struct are lent in no call that the borrow checker covers (tried in `graph::store`).
#![tactic(auto)]

ghost use Rattle.std.specs.Prelude.{◌+◌, ◌≤◌, length};
ghost use Rattle.tables.specs.Tables.{tables};
ghost use Rattle.tables.specs.Valid.{Valid};
ghost use Rattle.samples.specs.Room.{Room};

use judge::Change;
use std::io::{self, Print, Write};
use std::rt::HostRuntime;

// Writes the hash of change k.
fn name(out: &mut [u8], at: usize, k: u64)
    requires { at + 32 ≤ length out.old }
{
    let [low, high, ..] = k.to_le_bytes();
    out[at] = low;
    out[at + 1] = high;
}

// Fills the buffer with the hashes of changes 1, 2, 3 and so on.
fn names(out: &mut [u8]) {
    for i in 0..out.len() / 32 {
        name(out, 32 * i, i as u64 + 1);
    }
}

// One line of the output.
fn say<R: Print>(rt: &R, words: &[u8], number: u32) {
    let _ = io::writer(rt).write_all(words);
    let _ = println!(rt; "{number}");
}

// Adds change k with the max op and the dependencies, and answers the paper's number.
fn add(
    hashes: &mut [u8],
    nodes: &mut [u32],
    targets: &mut [u32],
    nexts: &mut [u32],
    clocks: &mut [u32],
    counts: &mut [u32],
    k: u64,
    max: u64,
    deps: &[u8],
) -> u32
    requires { Valid (tables hashes.old nodes.old targets.old nexts.old clocks.old counts.old) }
    ensures { Valid (tables hashes.new nodes.new targets.new nexts.new clocks.new counts.new) }
{
    let mut hash = [0u8; 32];
    name(&mut hash, 0, k);
    let change = Change {
        hash: &hash,
        actor: 0,
        seq: k,
        max_op: max,
        ops: 0,
        deps,
    };
    judge::number(graph::add(hashes, nodes, targets, nexts, clocks, counts, &change))
}

// Adds the changes from a number on up to an end that is left out, with no dependencies.
fn fill(
    hashes: &mut [u8],
    nodes: &mut [u32],
    targets: &mut [u32],
    nexts: &mut [u32],
    clocks: &mut [u32],
    counts: &mut [u32],
    from: u64,
    end: u64,
)
    requires { Valid (tables hashes.old nodes.old targets.old nexts.old clocks.old counts.old) }
    ensures { Valid (tables hashes.new nodes.new targets.new nexts.new clocks.new counts.new) }
{
    for k in from..end {
        add(hashes, nodes, targets, nexts, clocks, counts, k, 0, b"");
    }
}

// A sample: the change is added, and the answer goes to the output.
fn sample<R: Print>(
    rt: &R,
    hashes: &mut [u8],
    nodes: &mut [u32],
    targets: &mut [u32],
    nexts: &mut [u32],
    clocks: &mut [u32],
    counts: &mut [u32],
    words: &[u8],
    k: u64,
    max: u64,
    deps: &[u8],
)
    requires { Valid (tables hashes.old nodes.old targets.old nexts.old clocks.old counts.old) }
    ensures { Valid (tables hashes.new nodes.new targets.new nexts.new clocks.new counts.new) }
{
    let r = add(hashes, nodes, targets, nexts, clocks, counts, k, max, deps);
    say(rt, words, r);
}

// The most dependencies, and one more.
fn dependencies<R: Print>(
    rt: &R,
    hashes: &mut [u8],
    nodes: &mut [u32],
    targets: &mut [u32],
    nexts: &mut [u32],
    clocks: &mut [u32],
    counts: &mut [u32],
)
    requires { Valid (tables hashes.old nodes.old targets.old nexts.old clocks.old counts.old) }
    ensures { Valid (tables hashes.new nodes.new targets.new nexts.new clocks.new counts.new) }
{
    let mut many = [0u8; 1056];
    names(&mut many);
    sample(
        rt,
        hashes,
        nodes,
        targets,
        nexts,
        clocks,
        counts,
        b"33 dependencies: ",
        34,
        0,
        &many,
    );
    let mut most = [0u8; 1024];
    names(&mut most);
    sample(
        rt,
        hashes,
        nodes,
        targets,
        nexts,
        clocks,
        counts,
        b"32 dependencies: ",
        34,
        0,
        &most,
    );
}

// The largest max op, and one more.
fn max_ops<R: Print>(
    rt: &R,
    hashes: &mut [u8],
    nodes: &mut [u32],
    targets: &mut [u32],
    nexts: &mut [u32],
    clocks: &mut [u32],
    counts: &mut [u32],
)
    requires { Valid (tables hashes.old nodes.old targets.old nexts.old clocks.old counts.old) }
    ensures { Valid (tables hashes.new nodes.new targets.new nexts.new clocks.new counts.new) }
{
    sample(
        rt,
        hashes,
        nodes,
        targets,
        nexts,
        clocks,
        counts,
        b"max op 4,294,967,296: ",
        35,
        4294967296,
        b"",
    );
    sample(
        rt,
        hashes,
        nodes,
        targets,
        nexts,
        clocks,
        counts,
        b"max op 4,294,967,295: ",
        35,
        4294967295,
        b"",
    );
}

// A change that names itself.
fn itself<R: Print>(
    rt: &R,
    hashes: &mut [u8],
    nodes: &mut [u32],
    targets: &mut [u32],
    nexts: &mut [u32],
    clocks: &mut [u32],
    counts: &mut [u32],
)
    requires { Valid (tables hashes.old nodes.old targets.old nexts.old clocks.old counts.old) }
    ensures { Valid (tables hashes.new nodes.new targets.new nexts.new clocks.new counts.new) }
{
    let mut deps = [0u8; 32];
    name(&mut deps, 0, 36);
    sample(
        rt,
        hashes,
        nodes,
        targets,
        nexts,
        clocks,
        counts,
        b"a change naming itself: ",
        36,
        0,
        &deps,
    );
}

// The last change that there is room for, and one more.
fn last<R: Print>(
    rt: &R,
    hashes: &mut [u8],
    nodes: &mut [u32],
    targets: &mut [u32],
    nexts: &mut [u32],
    clocks: &mut [u32],
    counts: &mut [u32],
)
    requires { Valid (tables hashes.old nodes.old targets.old nexts.old clocks.old counts.old) }
    ensures { Valid (tables hashes.new nodes.new targets.new nexts.new clocks.new counts.new) }
{
    sample(
        rt,
        hashes,
        nodes,
        targets,
        nexts,
        clocks,
        counts,
        b"4,096th change: ",
        4096,
        0,
        b"",
    );
    sample(
        rt,
        hashes,
        nodes,
        targets,
        nexts,
        clocks,
        counts,
        b"4,097th change: ",
        4097,
        0,
        b"",
    );
}

// The samples on what one change may have.
fn limits<R: Print>(
    rt: &R,
    hashes: &mut [u8],
    nodes: &mut [u32],
    targets: &mut [u32],
    nexts: &mut [u32],
    clocks: &mut [u32],
    counts: &mut [u32],
)
    requires { Valid (tables hashes.old nodes.old targets.old nexts.old clocks.old counts.old) }
    ensures { Valid (tables hashes.new nodes.new targets.new nexts.new clocks.new counts.new) }
{
    dependencies(rt, hashes, nodes, targets, nexts, clocks, counts);
    max_ops(rt, hashes, nodes, targets, nexts, clocks, counts);
}

// Those on the room, with the graph filled before.
fn room<R: Print>(
    rt: &R,
    hashes: &mut [u8],
    nodes: &mut [u32],
    targets: &mut [u32],
    nexts: &mut [u32],
    clocks: &mut [u32],
    counts: &mut [u32],
)
    requires { Valid (tables hashes.old nodes.old targets.old nexts.old clocks.old counts.old) }
    ensures { Valid (tables hashes.new nodes.new targets.new nexts.new clocks.new counts.new) }
{
    fill(hashes, nodes, targets, nexts, clocks, counts, 36, 4096);
    last(rt, hashes, nodes, targets, nexts, clocks, counts);
}

// The samples up to change 35.
fn early<R: Print>(
    rt: &R,
    hashes: &mut [u8],
    nodes: &mut [u32],
    targets: &mut [u32],
    nexts: &mut [u32],
    clocks: &mut [u32],
    counts: &mut [u32],
)
    requires { Valid (tables hashes.old nodes.old targets.old nexts.old clocks.old counts.old) }
    ensures { Valid (tables hashes.new nodes.new targets.new nexts.new clocks.new counts.new) }
{
    fill(hashes, nodes, targets, nexts, clocks, counts, 1, 34);
    limits(rt, hashes, nodes, targets, nexts, clocks, counts);
}

// The samples from change 36 on.
fn late<R: Print>(
    rt: &R,
    hashes: &mut [u8],
    nodes: &mut [u32],
    targets: &mut [u32],
    nexts: &mut [u32],
    clocks: &mut [u32],
    counts: &mut [u32],
)
    requires { Valid (tables hashes.old nodes.old targets.old nexts.old clocks.old counts.old) }
    ensures { Valid (tables hashes.new nodes.new targets.new nexts.new clocks.new counts.new) }
{
    itself(rt, hashes, nodes, targets, nexts, clocks, counts);
    room(rt, hashes, nodes, targets, nexts, clocks, counts);
}

// All samples, in a graph opened for one actor.
fn replay<R: Print>(
    rt: &R,
    hashes: &mut [u8],
    nodes: &mut [u32],
    targets: &mut [u32],
    nexts: &mut [u32],
    clocks: &mut [u32],
    counts: &mut [u32],
)
    requires { Room (tables hashes.old nodes.old targets.old nexts.old clocks.old counts.old) }
{
    let _ = actors::open_empty(hashes, nodes, targets, nexts, clocks, counts, 1);
    early(rt, hashes, nodes, targets, nexts, clocks, counts);
    late(rt, hashes, nodes, targets, nexts, clocks, counts);
}

fn main(rt: HostRuntime) {
    let mut hashes = [0u8; 131072];
    let mut nodes = [0u32; 24576];
    let mut targets = [0u32; 16384];
    let mut nexts = [0u32; 16384];
    let mut clocks = [0u32; 262144];
    let mut counts = [0u32; 3];
    replay(
        &rt,
        &mut hashes,
        &mut nodes,
        &mut targets,
        &mut nexts,
        &mut clocks,
        &mut counts,
    );
}
