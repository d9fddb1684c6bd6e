// Changes that wait for their dependencies, from C: the batch, the queue, and releasing against a graph.
ghost use Rattle.waiting.specs.Valid.{store};
ghost use Rattle.edges.specs.Edges.{lent};
ghost use Rattle.hub_batch.specs.Operations.{QueueOpened, BatchPushed};
ghost use Rattle.hub_queue.specs.Operations.{HandedOver, BranchRemoved, QueueIsEmpty, QueueHasHash, QueueHasActorSeq, QueueGiven};
ghost use Rattle.hub_release.specs.Operations.{stock, FreedBy};

use edges::Edge;

#[unsafe(no_mangle)]
pub extern "C" fn cg_queue_open(
    hashes: &[u8],
    numbers: &[u64],
    deps: &[u8],
    count: &mut [u32],
) -> u32
    ensures { QueueOpened (store hashes.now numbers.now deps.now count.old) result count.new }
{
    hub_batch::cg_queue_open(hashes, numbers, deps, count)
}

#[unsafe(no_mangle)]
pub extern "C" fn cg_batch_push(
    hashes: &mut [u8],
    numbers: &mut [u64],
    deps: &mut [u8],
    count: &mut [u32],
    hash: &[u8],
    key: u64,
    seq: u64,
    top: u64,
    ops: u64,
    needs: &[u8],
) -> u32
    ensures { BatchPushed (store hashes.old numbers.old deps.old count.old) hash.now key seq top ops needs.now result (store hashes.new numbers.new deps.new count.new) }
{
    hub_batch::cg_batch_push(
        hashes, numbers, deps, count, hash, key, seq, top, ops, needs,
    )
}

#[unsafe(no_mangle)]
pub extern "C" fn cg_hand_over(
    hashes: &mut [u8],
    numbers: &mut [u64],
    deps: &mut [u8],
    count: &mut [u32],
    bhashes: &[u8],
    bnumbers: &[u64],
    bdeps: &[u8],
    bcount: &mut [u32],
) -> u32
    ensures { HandedOver (store hashes.old numbers.old deps.old count.old) (store bhashes.now bnumbers.now bdeps.now bcount.old) result (store hashes.new numbers.new deps.new count.new) bcount.new }
{
    hub_queue::cg_hand_over(
        hashes, numbers, deps, count, bhashes, bnumbers, bdeps, bcount,
    )
}

#[unsafe(no_mangle)]
pub extern "C" fn cg_remove_actor_branch_from(
    hashes: &mut [u8],
    numbers: &mut [u64],
    deps: &mut [u8],
    count: &mut [u32],
    key: u64,
    from: u64,
) -> u32
    ensures { BranchRemoved (store hashes.old numbers.old deps.old count.old) key from result (store hashes.new numbers.new deps.new count.new) }
{
    hub_queue::cg_remove_actor_branch_from(hashes, numbers, deps, count, key, from)
}

#[unsafe(no_mangle)]
pub extern "C" fn cg_queue_is_empty(
    hashes: &[u8],
    numbers: &[u64],
    deps: &[u8],
    count: &[u32],
    told: &mut [u64],
) -> u32
    ensures { QueueIsEmpty (store hashes.now numbers.now deps.now count.now) told.old result told.new }
{
    hub_queue::cg_queue_is_empty(hashes, numbers, deps, count, told)
}

#[unsafe(no_mangle)]
pub extern "C" fn cg_queue_has_hash(
    hashes: &[u8],
    numbers: &[u64],
    deps: &[u8],
    count: &[u32],
    hash: &[u8],
    told: &mut [u64],
) -> u32
    ensures { QueueHasHash (store hashes.now numbers.now deps.now count.now) hash.now told.old result told.new }
{
    hub_queue::cg_queue_has_hash(hashes, numbers, deps, count, hash, told)
}

#[unsafe(no_mangle)]
pub extern "C" fn cg_queue_has_actor_seq(
    hashes: &[u8],
    numbers: &[u64],
    deps: &[u8],
    count: &[u32],
    key: u64,
    seq: u64,
    told: &mut [u64],
) -> u32
    ensures { QueueHasActorSeq (store hashes.now numbers.now deps.now count.now) key seq told.old result told.new }
{
    hub_queue::cg_queue_has_actor_seq(hashes, numbers, deps, count, key, seq, told)
}

#[unsafe(no_mangle)]
pub extern "C" fn cg_queue_iter(
    hashes: &[u8],
    numbers: &[u64],
    deps: &[u8],
    count: &[u32],
    thashes: &mut [u8],
    tnumbers: &mut [u64],
    tdeps: &mut [u8],
    told: &mut [u64],
) -> u32
    ensures { QueueGiven (store hashes.now numbers.now deps.now count.now) thashes.old tnumbers.old tdeps.old told.old result thashes.new tnumbers.new tdeps.new told.new }
{
    hub_queue::cg_queue_iter(hashes, numbers, deps, count, thashes, tnumbers, tdeps, told)
}

#[unsafe(no_mangle)]
pub extern "C" fn cg_release(
    hashes: &[u8],
    nodes: &[u32],
    edges: &[Edge],
    clocks: &[u32],
    counts: &[u32],
    qhashes: &mut [u8],
    qnumbers: &mut [u64],
    qdeps: &mut [u8],
    qcount: &mut [u32],
    thashes: &mut [u8],
    tnumbers: &mut [u64],
    tdeps: &mut [u8],
    told: &mut [u64],
) -> u32
    ensures { FreedBy (stock qhashes.old qnumbers.old qdeps.old qcount.old thashes.old tnumbers.old tdeps.old told.old) result (stock qhashes.new qnumbers.new qdeps.new qcount.new thashes.new tnumbers.new tdeps.new told.new) (lent hashes.now nodes.now edges.now clocks.now counts.now) }
{
    hub_release::cg_release(
        hashes, nodes, edges, clocks, counts, qhashes, qnumbers, qdeps, qcount, thashes, tnumbers,
        tdeps, told,
    )
}
