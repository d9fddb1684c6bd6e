// Opening a queue or a batch, and pushing to a batch, from C. Each function answers the paper's number of what the operation answers.
#![tactic(auto)]

ghost use Rattle.waiting.specs.Valid.{store};
ghost use Rattle.hub_batch.specs.Operations.{QueueOpened, BatchPushed};

use waiting::number_of;

// Opens an empty queue or batch: 1 if the lengths disagree, or 0 and the count is 0.
#[unsafe(no_mangle)]
pub extern "C" fn cg_queue_open(
    hashes: &[u8],
    numbers: &[u64],
    deps: &[u8],
    count: &mut [u32],
) -> u32
    ensures { QueueOpened (store hashes.now numbers.now deps.now count.old) result count.new }
{
    number_of(waiting::open_empty(hashes, numbers, deps, count))
}

// Takes a change into a batch: 1, 2, 3, 16, 8, 17, or 0 and it stands after the others.
#[unsafe(no_mangle)]
pub extern "C" fn cg_batch_push(
    hashes: &mut [u8],
    numbers: &mut [u64],
    deps: &mut [u8],
    count: &mut [u32],
    hash: &[u8],
    key: u64,
    seq: u64,
    top: u64,
    ops: u64,
    needs: &[u8],
) -> u32
    ensures { BatchPushed (store hashes.old numbers.old deps.old count.old) hash.now key seq top ops needs.now result (store hashes.new numbers.new deps.new count.new) }
{
    let pushed = batch::push(
        hashes, numbers, deps, count, hash, key, seq, top, ops, needs,
    );
    number_of(pushed)
}
