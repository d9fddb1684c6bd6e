// A batch of waiting changes: pushing to it.
#![tactic(auto)]

ghost use Rattle.std.specs.Prelude.{◌≡◌, ℕ, ◌+◌, ◌*◌, ◌≤◌, ◌<◌, length, get_or, Ok, Err};
ghost use Rattle.waiting.specs.Valid.{StoreValid, HeldOrNot};
ghost use Rattle.batch.specs.Push.{is_malformed, Counted, push_judged, Placeable, StandsLast, PushedTo};

use ready::is_known;
use records::{copy, put_five};
use waiting::{QueueRefusal, check, has_pair};

// Is the hash not of 32 bytes, or the list of hashes no multiple of 32?
#[tactic(auto, unfolding(crate::specs::Push::is_malformed))]
fn malformed(hash: &[u8], needs: &[u8]) -> bool
    ensures { result ≡ is_malformed hash.now needs.now }
{
    hash.len() != 32 || needs.len() % 32 != 0
}

// What a push would answer; changes nothing.
#[tactic(auto, unfolding(crate::specs::Push::push_judged))]
pub fn judge_push(
    hashes: &[u8],
    numbers: &[u64],
    count: &[u32],
    hash: &[u8],
    key: u64,
    seq: u64,
    needs: &[u8],
) -> Result<(), QueueRefusal>
    requires { Counted hashes.now numbers.now count.now }
    ensures { result ≡ push_judged hashes.now numbers.now count.now hash.now key seq needs.now }
{
    if malformed(hash, needs) {
        return Err(QueueRefusal::Malformed);
    }
    let n = count[0] as usize;
    if is_known(hashes, n, hash) {
        return Err(QueueRefusal::AlreadyKnown);
    }
    if has_pair(numbers, n, key, seq) {
        return Err(QueueRefusal::AlreadyWaiting);
    }
    if 32 < needs.len() / 32 {
        return Err(QueueRefusal::ManyDependencies);
    }
    if hashes.len() / 32 <= n {
        return Err(QueueRefusal::NoQueueRoom);
    }
    Ok(())
}

// Puts a change after the others.
fn place(
    hashes: &mut [u8],
    numbers: &mut [u64],
    deps: &mut [u8],
    count: &mut [u32],
    hash: &[u8],
    key: u64,
    seq: u64,
    top: u64,
    ops: u64,
    needs: &[u8],
)
    requires { Placeable hashes.old numbers.old deps.old count.old hash.now needs.now }
    ensures { StandsLast hashes.old numbers.old deps.old count.old hash.now key seq top ops needs.now hashes.new numbers.new deps.new count.new }
{
    let n = count[0] as usize;
    copy(hashes, 32 * n, hash, 0, 32);
    put_five(numbers, n, key, seq, top, ops, (needs.len() / 32) as u64);
    copy(deps, 1024 * n, needs, 0, needs.len());
    count[0] = (n + 1) as u32;
}

// Takes a change into a valid batch: 2, 3, 16, 8, 17, or 0 and it stands after the others.
#[tactic(auto, unfolding(crate::specs::Push::PushedTo))]
pub fn take_in(
    hashes: &mut [u8],
    numbers: &mut [u64],
    deps: &mut [u8],
    count: &mut [u32],
    hash: &[u8],
    key: u64,
    seq: u64,
    top: u64,
    ops: u64,
    needs: &[u8],
) -> Result<(), QueueRefusal>
    requires { StoreValid hashes.old numbers.old deps.old count.old }
    ensures value { result ≡ push_judged hashes.old numbers.old count.old hash.now key seq needs.now }
    ensures pushed_to { PushedTo result hashes.old numbers.old deps.old count.old hash.now key seq top ops needs.now hashes.new numbers.new deps.new count.new }
{
    judge_push(hashes, numbers, count, hash, key, seq, needs)?;
    place(
        hashes, numbers, deps, count, hash, key, seq, top, ops, needs,
    );
    Ok(())
}

// Takes a change into a batch: 1 if the batch is not valid, 2, 3, 16, 8, 17, or 0 and it stands after the others. Every number but 0 changes nothing.
#[tactic(auto, unfolding(crate::specs::Push::PushedTo))]
pub fn push(
    hashes: &mut [u8],
    numbers: &mut [u64],
    deps: &mut [u8],
    count: &mut [u32],
    hash: &[u8],
    key: u64,
    seq: u64,
    top: u64,
    ops: u64,
    needs: &[u8],
) -> Result<(), QueueRefusal>
    ensures held_or_not { HeldOrNot (StoreValid hashes.old numbers.old deps.old count.old) (result ≡ push_judged hashes.old numbers.old count.old hash.now key seq needs.now) (result ≡ Err QueueRefusal.NotValid) }
    ensures pushed_to { PushedTo result hashes.old numbers.old deps.old count.old hash.now key seq top ops needs.now hashes.new numbers.new deps.new count.new }
{
    check(hashes, numbers, deps, count)?;
    take_in(
        hashes, numbers, deps, count, hash, key, seq, top, ops, needs,
    )
}
