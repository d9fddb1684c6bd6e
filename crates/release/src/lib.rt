// Releasing the ready ones of a queue, against the hashes that a graph knows.
#![tactic(auto)]

ghost use Rattle.std.specs.Prelude.{◌≡◌, ℕ, ◌+◌, ◌*◌, ◌≤◌, ◌<◌, length, get_or, Err};
ghost use Rattle.paper.specs.Lists.{pick};
ghost use Rattle.records.specs.Records.{Rooms, Listable, Filled, place_of, unlisted};
ghost use Rattle.waiting.specs.Valid.{StoreValid, HeldOrNot, waiting};
ghost use Rattle.waiting.specs.Taken.{TakenOut};
ghost use Rattle.release.specs.Release.{Lent, ready_of, released_as, ReleasedTo};

use ready::ready_order;
use records::{close_up, copy_list};
use waiting::{QueueRefusal, check, roomy};

// Gives out the records at the first r positions of `order`, and closes the queue up.
fn give_out(
    hashes: &mut [u8],
    numbers: &mut [u64],
    deps: &mut [u8],
    count: &mut [u32],
    order: &[u32],
    r: usize,
    thashes: &mut [u8],
    tnumbers: &mut [u64],
    tdeps: &mut [u8],
)
    requires store_valid { StoreValid hashes.old numbers.old deps.old count.old }
    requires listable { Listable hashes.old numbers.old deps.old (waiting count.old) order.now r }
    requires rooms { Rooms thashes.old tnumbers.old tdeps.old r }
    ensures filled { Filled hashes.old numbers.old deps.old (place_of order.now) 0 r thashes.old tnumbers.old tdeps.old thashes.new tnumbers.new tdeps.new }
    ensures taken_out { TakenOut hashes.old numbers.old deps.old count.old (pick (unlisted order.now r) (waiting count.old)) hashes.new numbers.new deps.new count.new }
{
    let n = count[0] as usize;
    copy_list(hashes, numbers, deps, n, order, r, thashes, tnumbers, tdeps);
    let w = close_up(hashes, numbers, deps, n, order, r);
    count[0] = w as u32;
}

// Releases the ready ones of a valid queue, against the graph's first `known` hashes, in ready order into the other tables.
#[tactic(auto, unfolding(crate::specs::Release::ReleasedTo))]
pub fn release_ready(
    graph: &[u8],
    known: usize,
    hashes: &mut [u8],
    numbers: &mut [u64],
    deps: &mut [u8],
    count: &mut [u32],
    thashes: &mut [u8],
    tnumbers: &mut [u64],
    tdeps: &mut [u8],
) -> Result<usize, QueueRefusal>
    requires known_in_bounds { 32 * known ≤ length graph.now }
    requires store_valid { StoreValid hashes.old numbers.old deps.old count.old }
    ensures value { result ≡ released_as (ready_of graph.now known hashes.old numbers.old deps.old count.old) thashes.old tnumbers.old tdeps.old }
    ensures released_to { ReleasedTo result graph.now known hashes.old numbers.old deps.old count.old thashes.old tnumbers.old tdeps.old hashes.new numbers.new deps.new count.new thashes.new tnumbers.new tdeps.new }
{
    let n = count[0] as usize;
    let mut order = [0u32; 256];
    let r = ready_order(graph, known, hashes, numbers, deps, n, &mut order);
    if !roomy(thashes.len(), tnumbers.len(), tdeps.len(), r) {
        return Err(QueueRefusal::ShortBuffer);
    }
    give_out(
        hashes, numbers, deps, count, &order, r, thashes, tnumbers, tdeps,
    );
    Ok(r)
}

// Releases the ready ones of a queue: 1 if the queue is not valid or `graph` has fewer than `known` hashes, 15 if the answer tables cannot hold
// all of them whole, or 0. Every number but 0 changes nothing.
#[tactic(auto, unfolding(crate::specs::Release::ReleasedTo))]
pub fn release(
    graph: &[u8],
    known: usize,
    hashes: &mut [u8],
    numbers: &mut [u64],
    deps: &mut [u8],
    count: &mut [u32],
    thashes: &mut [u8],
    tnumbers: &mut [u64],
    tdeps: &mut [u8],
) -> Result<usize, QueueRefusal>
    ensures held_or_not { HeldOrNot (Lent graph.now known hashes.old numbers.old deps.old count.old) (result ≡ released_as (ready_of graph.now known hashes.old numbers.old deps.old count.old) thashes.old tnumbers.old tdeps.old) (result ≡ Err QueueRefusal.NotValid) }
    ensures released_to { ReleasedTo result graph.now known hashes.old numbers.old deps.old count.old thashes.old tnumbers.old tdeps.old hashes.new numbers.new deps.new count.new thashes.new tnumbers.new tdeps.new }
{
    if graph.len() / 32 < known {
        return Err(QueueRefusal::NotValid);
    }
    check(hashes, numbers, deps, count)?;
    release_ready(
        graph, known, hashes, numbers, deps, count, thashes, tnumbers, tdeps,
    )
}
