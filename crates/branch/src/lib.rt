// Drops an actor's changes at or after a sequence, and all waiting ones that depend on them, out of a queue.
#![tactic(auto)]

ghost use Rattle.std.specs.Prelude.{◌≡◌, ◌&&◌, not, ℕ, ◌+◌, ◌*◌, ◌≤◌, ◌<◌, eqb, leb, length, take, get_or, Ok, Err};
ghost use Rattle.paper.specs.Lists.{names, mem, tally};
ghost use Rattle.paper.specs.Lists.{hash_at, hashes_from};
ghost use Rattle.ready.specs.Tables.{dep_count, DepsHeld};
ghost use Rattle.branch.specs.Branch.{on_branch, new_child, PutAfter, Droppable, DropList, kept_of, RemovedTo};
ghost use Rattle.waiting.specs.Valid.{StoreValid, HeldOrNot};
ghost use Rattle.waiting.specs.Taken.{TakenOut};

use hash::same_at;
use ready::put_if;
use records::{close_up, is_listed};
use waiting::{QueueRefusal, check};

// Is one of the m hashes of `deps` from hash `first` on the hash k of `hashes`?
fn depends(hashes: &[u8], k: usize, deps: &[u8], first: usize, m: usize) -> bool
    requires { (32 * k + 32 ≤ length hashes.now) × (32 * (first + m) ≤ length deps.now) }
    ensures { result ≡ names (hash_at hashes.now k) (hashes_from deps.now m first) }
{
    let hash = &hashes[32 * k..32 * k + 32];
    (0..m).any(|j| same_at(deps, first + j, hash))
}

// Is a the actor's key, and b at or after the sequence?
fn on_branch(a: u64, b: u64, key: u64, from: u64) -> bool
    ensures { result ≡ (eqb a key && leb from b) }
{
    a == key && from <= b
}

// Lists the actor's changes at or after the sequence.
fn list_branch(numbers: &[u64], n: usize, key: u64, from: u64, list: &mut [u32]) -> usize
    requires { (5 * n ≤ length numbers.now) × (n ≤ 256) × (n ≤ length list.old) }
    ensures { PutAfter (on_branch numbers.now key from) n 0 list.old result list.new }
{
    let mut r = 0;
    for i in 0..n {
        r = put_if(
            list,
            r,
            i as u32,
            on_branch(numbers[5 * i], numbers[5 * i + 1], key, from),
        );
    }
    r
}

// Does record i depend on record k, and is it none of the first r listed?
#[tactic(auto, unfolding(crate::specs::Branch::depends_on))]
fn new_child(
    hashes: &[u8],
    numbers: &[u64],
    deps: &[u8],
    n: usize,
    k: usize,
    list: &[u32],
    r: usize,
    i: usize,
) -> bool
    requires k_in_bounds { (32 * k + 32 ≤ length hashes.now) × DepsHeld numbers.now deps.now n × (n ≤ 256) }
    requires i_lt_n { (i < n) × (r ≤ length list.now) }
    ensures { result ≡ new_child hashes.now numbers.now deps.now k (take r list.now) i }
{
    depends(hashes, k, deps, 32 * i, numbers[5 * i + 4] as usize) && !is_listed(list, r, i as u32)
}

// Lists after the first r those that depend on record k and are not listed.
fn list_children(
    hashes: &[u8],
    numbers: &[u64],
    deps: &[u8],
    n: usize,
    k: usize,
    list: &mut [u32],
    r: usize,
) -> usize
    requires k_in_bounds { (32 * k + 32 ≤ length hashes.now) × DepsHeld numbers.now deps.now n × (n ≤ 256) }
    requires n_in_bounds { r + tally (new_child hashes.now numbers.now deps.now k (take r list.old)) n ≤ length list.old }
    ensures { PutAfter (new_child hashes.now numbers.now deps.now k (take r list.old)) n r list.old result list.new }
{
    let mut q = r;
    for i in 0..n {
        let yes = new_child(hashes, numbers, deps, n, k, list, r, i);
        q = put_if(list, q, i as u32, yes);
    }
    q
}

// The positions of the dropped ones, into `list`; answers how many they are.
fn list_dropped(
    hashes: &[u8],
    numbers: &[u64],
    deps: &[u8],
    n: usize,
    key: u64,
    from: u64,
    list: &mut [u32],
) -> usize
    requires { Droppable hashes.now numbers.now deps.now n list.old }
    ensures { DropList hashes.now numbers.now deps.now n key from list.old result list.new }
{
    let own = list_branch(numbers, n, key, from, list);
    let mut r = own;
    // The list grows while it is gone through: no range or iterator of it can be held.
    let mut c = 0;
    while c < r {
        let k = list[c] as usize;
        r = list_children(hashes, numbers, deps, n, k, list, r);
        c += 1;
    }
    r
}

// Drops the actor's changes at or after the sequence from a valid queue, and all waiting ones that depend on them.
pub fn drop_branch(
    hashes: &mut [u8],
    numbers: &mut [u64],
    deps: &mut [u8],
    count: &mut [u32],
    key: u64,
    from: u64,
)
    requires { StoreValid hashes.old numbers.old deps.old count.old }
    ensures { TakenOut hashes.old numbers.old deps.old count.old (kept_of hashes.old numbers.old deps.old count.old key from) hashes.new numbers.new deps.new count.new }
{
    let n = count[0] as usize;
    let mut list = [0u32; 256];
    let r = list_dropped(hashes, numbers, deps, n, key, from, &mut list);
    let w = close_up(hashes, numbers, deps, n, &list, r);
    count[0] = w as u32;
}

// Drops the actor's changes at or after the sequence from a queue, and all waiting ones that depend on them, directly or through other waiting ones:
// 1 if the queue is not valid, or 0.
#[tactic(auto, unfolding(crate::specs::Branch::RemovedTo))]
pub fn remove_actor_branch_from(
    hashes: &mut [u8],
    numbers: &mut [u64],
    deps: &mut [u8],
    count: &mut [u32],
    key: u64,
    from: u64,
) -> Result<(), QueueRefusal>
    ensures held_or_not { HeldOrNot (StoreValid hashes.old numbers.old deps.old count.old) (result ≡ Ok tt) (result ≡ Err QueueRefusal.NotValid) }
    ensures removed_to { RemovedTo result hashes.old numbers.old deps.old count.old key from hashes.new numbers.new deps.new count.new }
{
    check(hashes, numbers, deps, count)?;
    drop_branch(hashes, numbers, deps, count, key, from);
    Ok(())
}
