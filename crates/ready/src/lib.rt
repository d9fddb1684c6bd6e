// The ready order of a queue, as positions, by counting what each waiting change still waits for.
#![tactic(auto)]

ghost use Rattle.std.specs.Prelude.{◌≡◌, cond, not, ◌&&◌, List, [], ◌∷◌, ◌++◌, ℕ, ◌+◌, ◌*◌, ◌≤◌, ◌<◌, eqb, length, get_or, take};
ghost use Rattle.paper.specs.Lists.{same_list, count, tally};
ghost use Rattle.paper.specs.Lists.{hash_at, hashes_from};
ghost use Rattle.ready.specs.Tables.{known_in, none_of, queue_of, DepsHeld};
ghost use Rattle.ready.specs.Open.{unknown_of, hits_of, last_hit, freed_by, Begun, Passed, Freeable};
ghost use Rattle.ready.specs.Ordering.{Askable, Turnable, Turned, Ordered};

// Is the hash one of the first n of the graph's table?
pub fn is_known(graph: &[u8], n: usize, hash: &[u8]) -> bool
    requires { (32 * n ≤ length graph.now) × (length hash.now ≡ 32) }
    ensures { result ≡ known_in graph.now n hash.now }
{
    hash::find(graph, n, hash).is_some()
}

// How many of the m hashes of `deps` from hash `first` on are one of the first n of `table`.
fn count_known(table: &[u8], n: usize, deps: &[u8], first: usize, m: usize) -> u32
    requires { (32 * n ≤ length table.now) × (32 * (first + m) ≤ length deps.now) × (m ≤ 32) }
    ensures value { result ≡ count (known_in table.now n) (hashes_from deps.now m first) }
    ensures most { result ≤ m }
{
    let mut total = 0;
    for j in 0..m {
        let p = 32 * (first + j);
        total += u32::from(is_known(table, n, &deps[p..p + 32]));
    }
    total
}

// How many of them are none of the graph's first n.
fn count_unknown(graph: &[u8], n: usize, deps: &[u8], first: usize, m: usize) -> u32
    requires { (32 * n ≤ length graph.now) × (32 * (first + m) ≤ length deps.now) × (m ≤ 32) }
    ensures { result ≡ count (none_of graph.now n) (hashes_from deps.now m first) }
{
    m as u32 - count_known(graph, n, deps, first, m)
}

// Puts i at the end of the list of `listed` positions, if so told; answers how many are listed then.
pub fn put_if(order: &mut [u32], listed: usize, i: u32, yes: bool) -> usize
    requires { listed + cond yes 1 0 ≤ length order.old }
    ensures value { (result ≡ listed + cond yes 1 0) × (length order.new ≡ length order.old) }
    ensures order_after { take result order.new ≡ take listed order.old ++ cond yes (i ∷ []) [] }
{
    if yes {
        order[listed] = i;
        return listed + 1;
    }
    listed
}

// How many of the m hashes of `deps` from hash `first` on are hash k of `hashes`, where it is known that there are at most `due`.
fn hits(due: u32, hashes: &[u8], k: usize, deps: &[u8], first: usize, m: usize) -> u32
    requires k_in_bounds { (32 * k + 32 ≤ length hashes.now) × (32 * (first + m) ≤ length deps.now) × (m ≤ 32) }
    requires first_bound { count (same_list (hash_at hashes.now k)) (hashes_from deps.now m first) ≤ due }
    ensures { result ≡ count (same_list (hash_at hashes.now k)) (hashes_from deps.now m first) }
{
    if due == 0 {
        return 0;
    }
    let p = 32 * k;
    count_known(&hashes[p..p + 32], 1, deps, first, m)
}

// Are `hit` all of the `due` ones, and some?
fn is_last(due: u32, hit: u32) -> bool
    ensures { result ≡ last_hit due hit }
{
    due != 0 && due == hit
}

// Counts for each waiting change what is unknown, into `left`, and lists those with nothing unknown.
fn list_first(
    graph: &[u8],
    n: usize,
    numbers: &[u64],
    deps: &[u8],
    count: usize,
    left: &mut [u32],
    order: &mut [u32],
) -> usize
    requires n_in_bounds { (32 * n ≤ length graph.now) × DepsHeld numbers.now deps.now count }
    requires count_bound { (count ≤ 256) × (count ≤ length left.old) × (count ≤ length order.old) }
    ensures { Begun (unknown_of graph.now n numbers.now deps.now) count left.old order.old left.new result order.new }
{
    let mut listed = 0;
    for i in 0..count {
        let due = count_unknown(graph, n, deps, 32 * i, numbers[5 * i + 4] as usize);
        left[i] = due;
        listed = put_if(order, listed, i as u32, due == 0);
    }
    listed
}

// Takes the hash of the waiting change k from what each still waits for, and lists those that waited for nothing else.
fn list_freed(
    hashes: &[u8],
    numbers: &[u64],
    deps: &[u8],
    count: usize,
    k: usize,
    left: &mut [u32],
    order: &mut [u32],
    from: usize,
) -> usize
    requires { Freeable hashes.now numbers.now deps.now count k left.old from order.old }
    ensures { Passed (hits_of hashes.now numbers.now deps.now k) count left.old from order.old left.new result order.new }
{
    let mut listed = from;
    for i in 0..count {
        let due = left[i];
        let hit = hits(due, hashes, k, deps, 32 * i, numbers[5 * i + 4] as usize);
        left[i] = due - hit;
        listed = put_if(order, listed, i as u32, is_last(due, hit));
    }
    listed
}

// Lists those whose last unknown dependency was the listed change at place c.
fn list_next(
    graph: &[u8],
    n: usize,
    hashes: &[u8],
    numbers: &[u64],
    deps: &[u8],
    count: usize,
    c: usize,
    left: &mut [u32],
    order: &mut [u32],
    listed: usize,
) -> usize
    requires { Turnable graph.now n hashes.now numbers.now deps.now count c left.old listed order.old }
    ensures { Turned graph.now n hashes.now numbers.now deps.now count (c + 1) left.old order.old left.new result order.new }
{
    let k = order[c] as usize;
    let p = 32 * k;
    if is_known(graph, n, &hashes[p..p + 32]) {
        return listed;
    }
    list_freed(hashes, numbers, deps, count, k, left, order, listed)
}

// The ready order of the first `count` waiting changes, as positions into `order`; answers how many they are.
pub fn ready_order(
    graph: &[u8],
    n: usize,
    hashes: &[u8],
    numbers: &[u64],
    deps: &[u8],
    count: usize,
    order: &mut [u32],
) -> usize
    requires askable { Askable graph.now n hashes.now numbers.now deps.now count }
    requires count_in_bounds { count ≤ length order.old }
    ensures { Ordered graph.now n hashes.now numbers.now deps.now count order.old result order.new }
{
    let mut left = [0u32; 256];
    let mut listed = list_first(graph, n, numbers, deps, count, &mut left, order);
    // The list grows while it is gone through: no range or iterator of it can be held.
    let mut c = 0;
    while c < listed {
        listed = list_next(
            graph, n, hashes, numbers, deps, count, c, &mut left, order, listed,
        );
        c += 1;
    }
    listed
}
