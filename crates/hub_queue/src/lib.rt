// The queue from C: taking a batch over, the questions, and dropping an actor's branch. Each function answers the paper's number of what the operation answers.
// A yes or no, and how many records are handed out, are told in a lent place, which every number but 0 leaves as it was.
#![tactic(auto)]

ghost use Rattle.std.specs.Prelude.{◌≡◌};
ghost use Rattle.waiting.specs.Valid.{store};
ghost use Rattle.waiting.specs.Refused.{queue_number};
ghost use Rattle.hub_queue.specs.Told.{queue_yes_in, listed_count_in};
ghost use Rattle.hub_queue.specs.Operations.{HandedOver, BranchRemoved, QueueIsEmpty, QueueHasHash, QueueHasActorSeq, QueueGiven};

use lent_place::tell;
use waiting::{QueueRefusal, number_of};

// Tells yes or no, unless the question is refused, and answers the number.
fn tell_yes(asked: Result<bool, QueueRefusal>, told: &mut [u64]) -> u32
    ensures told_yes { told.new ≡ queue_yes_in asked told.old }
    ensures value { result ≡ queue_number asked }
{
    if let Ok(yes) = asked {
        tell(told, u64::from(yes));
    }
    number_of(asked)
}

// Tells how many, unless they are refused, and answers the number.
fn tell_count(listed: Result<usize, QueueRefusal>, told: &mut [u64]) -> u32
    ensures told_count { told.new ≡ listed_count_in listed told.old }
    ensures value { result ≡ queue_number listed }
{
    if let Ok(n) = listed {
        tell(told, n as u64);
    }
    number_of(listed)
}

// Hands a batch over to a queue: 1, 16, 17, or 0 and all its changes stand after the others and the batch is empty.
#[unsafe(no_mangle)]
pub extern "C" fn cg_hand_over(
    hashes: &mut [u8],
    numbers: &mut [u64],
    deps: &mut [u8],
    count: &mut [u32],
    bhashes: &[u8],
    bnumbers: &[u64],
    bdeps: &[u8],
    bcount: &mut [u32],
) -> u32
    ensures { HandedOver (store hashes.old numbers.old deps.old count.old) (store bhashes.now bnumbers.now bdeps.now bcount.old) result (store hashes.new numbers.new deps.new count.new) bcount.new }
{
    let handed = queue::hand_over(
        hashes, numbers, deps, count, bhashes, bnumbers, bdeps, bcount,
    );
    number_of(handed)
}

// Drops the actor's changes at or after the sequence, and all waiting ones that depend on them: 1 or 0.
#[unsafe(no_mangle)]
pub extern "C" fn cg_remove_actor_branch_from(
    hashes: &mut [u8],
    numbers: &mut [u64],
    deps: &mut [u8],
    count: &mut [u32],
    key: u64,
    from: u64,
) -> u32
    ensures { BranchRemoved (store hashes.old numbers.old deps.old count.old) key from result (store hashes.new numbers.new deps.new count.new) }
{
    number_of(branch::remove_actor_branch_from(hashes, numbers, deps, count, key, from))
}

// Waits nothing? 1 or 0.
#[unsafe(no_mangle)]
pub extern "C" fn cg_queue_is_empty(
    hashes: &[u8],
    numbers: &[u64],
    deps: &[u8],
    count: &[u32],
    told: &mut [u64],
) -> u32
    ensures { QueueIsEmpty (store hashes.now numbers.now deps.now count.now) told.old result told.new }
{
    let a = queue::is_empty(hashes, numbers, deps, count);
    tell_yes(a, told)
}

// Has a waiting change the hash? 1, 2 or 0.
#[unsafe(no_mangle)]
pub extern "C" fn cg_queue_has_hash(
    hashes: &[u8],
    numbers: &[u64],
    deps: &[u8],
    count: &[u32],
    hash: &[u8],
    told: &mut [u64],
) -> u32
    ensures { QueueHasHash (store hashes.now numbers.now deps.now count.now) hash.now told.old result told.new }
{
    let a = queue::has_hash(hashes, numbers, deps, count, hash);
    tell_yes(a, told)
}

// Has a waiting change the actor and the sequence? 1 or 0.
#[unsafe(no_mangle)]
pub extern "C" fn cg_queue_has_actor_seq(
    hashes: &[u8],
    numbers: &[u64],
    deps: &[u8],
    count: &[u32],
    key: u64,
    seq: u64,
    told: &mut [u64],
) -> u32
    ensures { QueueHasActorSeq (store hashes.now numbers.now deps.now count.now) key seq told.old result told.new }
{
    let a = queue::has_actor_seq(hashes, numbers, deps, count, key, seq);
    tell_yes(a, told)
}

// Gives all waiting records out, in queue order, into the other tables, and tells how many: 1, 15 or 0. The queue stays.
#[unsafe(no_mangle)]
pub extern "C" fn cg_queue_iter(
    hashes: &[u8],
    numbers: &[u64],
    deps: &[u8],
    count: &[u32],
    thashes: &mut [u8],
    tnumbers: &mut [u64],
    tdeps: &mut [u8],
    told: &mut [u64],
) -> u32
    ensures { QueueGiven (store hashes.now numbers.now deps.now count.now) thashes.old tnumbers.old tdeps.old told.old result thashes.new tnumbers.new tdeps.new told.new }
{
    let a = queue::iter(hashes, numbers, deps, count, thashes, tnumbers, tdeps);
    tell_count(a, told)
}
