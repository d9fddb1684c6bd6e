// Releasing the ready ones of a queue, from C, against a graph. The queue's tables are `qhashes` and so on, the answer's `thashes` and so on.
// `release_known` releases against the first hashes of a table and is called with a checked graph's alone. No table of the graph changes.
#![tactic(auto)]

ghost use Rattle.std.specs.Prelude.{◌≡◌};
ghost use Rattle.edges.specs.Edges.{lent};
ghost use Rattle.waiting.specs.Refused.{queue_number};
ghost use Rattle.hub_release.specs.Operations.{stock, released_count_in, Freed, FreedBy};

use edges::Edge;
use waiting::{QueueRefusal, number_of};

// Tells how many, unless the release is refused, and answers the number.
fn tell_count(released: Result<usize, QueueRefusal>, told: &mut [u64]) -> u32
    ensures told_count { told.new ≡ released_count_in released told.old }
    ensures value { result ≡ queue_number released }
{
    if let Ok(n) = released {
        lent_place::tell(told, n as u64);
    }
    number_of(released)
}

// Releases the ready ones against the first `known` of the hashes, and tells how many: 1, 15 or 0.
fn release_known(
    hashes: &[u8],
    known: usize,
    qhashes: &mut [u8],
    qnumbers: &mut [u64],
    qdeps: &mut [u8],
    qcount: &mut [u32],
    thashes: &mut [u8],
    tnumbers: &mut [u64],
    tdeps: &mut [u8],
    told: &mut [u64],
) -> u32
    ensures { Freed hashes.now known (stock qhashes.old qnumbers.old qdeps.old qcount.old thashes.old tnumbers.old tdeps.old told.old) result (stock qhashes.new qnumbers.new qdeps.new qcount.new thashes.new tnumbers.new tdeps.new told.new) }
{
    let a = release::release(
        hashes, known, qhashes, qnumbers, qdeps, qcount, thashes, tnumbers, tdeps,
    );
    tell_count(a, told)
}

// Releases the ready ones against the graph, and tells how many: 1 where the graph or the queue is not valid, 15 where the answer tables cannot hold them all whole, or 0.
#[unsafe(no_mangle)]
pub extern "C" fn cg_release(
    hashes: &[u8],
    nodes: &[u32],
    edges: &[Edge],
    clocks: &[u32],
    counts: &[u32],
    qhashes: &mut [u8],
    qnumbers: &mut [u64],
    qdeps: &mut [u8],
    qcount: &mut [u32],
    thashes: &mut [u8],
    tnumbers: &mut [u64],
    tdeps: &mut [u8],
    told: &mut [u64],
) -> u32
    ensures { FreedBy (stock qhashes.old qnumbers.old qdeps.old qcount.old thashes.old tnumbers.old tdeps.old told.old) result (stock qhashes.new qnumbers.new qdeps.new qcount.new thashes.new tnumbers.new tdeps.new told.new) (lent hashes.now nodes.now edges.now clocks.now counts.now) }
{
    let mut targets = [0u32; 16384];
    let mut nexts = [0u32; 16384];
    edges::unpack(edges, &mut targets, &mut nexts);
    let Some(tables) = hub_answer::valid_tables(
        hashes, nodes, edges, &targets, &nexts, clocks, counts,
    ) else {
        return 1;
    };
    let known = tables.counts[0] as usize;
    release_known(
        hashes, known, qhashes, qnumbers, qdeps, qcount, thashes, tnumbers, tdeps, told,
    )
}
