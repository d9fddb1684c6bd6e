// The cached clocks: caching a node, throwing the cached clocks away, and whether what is lent is valid.
// Tables that are written are taken one by one: two `&mut` of one struct are lent in no call that the borrow checker covers (tried in `graph::store`).
#![tactic(auto)]

ghost use Rattle.std.specs.Prelude.{◌≡◌, true, ◌↔◌, ℕ, ◌+◌, ◌*◌, ◌≤◌, ◌<◌, length, get_or, ltb};
ghost use Rattle.tables.specs.Lent.{lists};
ghost use Rattle.tables.specs.Tables.{tables, actor_room};
ghost use Rattle.tables.specs.Valid.{Valid, Sound};
ghost use Rattle.cache.specs.Cache.{after_caching, forgotten, RowMerged, Cachable, Begun, NodeCached, Halfway, LeftCached, RowIs, Checkable, NodeClocked, RowChecked};
ghost use Rattle.walk.specs.Rows.{RowsRight};
ghost use Rattle.std.proofs.Math.Seq.{paste};

use tables::Tables;

// Merges the `n` entries from `from` on into those from `to` on, which lie past them.
fn merge_rows(clocks: &mut [u32], from: usize, to: usize, n: usize)
    requires { (from + n ≤ to) × (to + n ≤ length clocks.old) }
    ensures { RowMerged from to n clocks.old clocks.new }
{
    let (below, row) = clocks.split_at_mut(to);
    walk::merge_row(&mut row[..n], below, from);
}

// Puts `clock` into the clock table from `from` on.
fn put_row(clock: &[u32], clocks: &mut [u32], from: usize)
    requires { from + length clock.now ≤ length clocks.old }
    ensures { clocks.new ≡ paste clocks.old from clock.now (length clock.now) }
{
    clocks[from..from + clock.len()].copy_from_slice(clock);
}

// Whether node `k`'s clock is cached.
fn is_cached(nodes: &[u32], clocks: &[u32], width: usize, k: usize) -> bool
    requires { (6 * k < length nodes.now) × (k * width + get_or nodes.now (6 * k) 0 < length clocks.now) }
    ensures { result ≡ ltb 0 (get_or clocks.now (k * width + get_or nodes.now (6 * k) 0) 0) }
{
    let actor = nodes[6 * k] as usize;
    let own = clocks[k * width + actor];
    0 < own
}

// The walk from node `k` with the limit 32. What it finds goes into row `k`, and the nodes left over are marked.
fn begin_cache(
    hashes: &[u8],
    nodes: &[u32],
    targets: &[u32],
    nexts: &[u32],
    clocks: &mut [u32],
    counts: &[u32],
    width: usize,
    k: usize,
    marks: &mut [u8],
)
    requires { Cachable (tables hashes.now nodes.now targets.now nexts.now clocks.old counts.now) width k marks.old }
    ensures { Begun (tables hashes.now nodes.now targets.now nexts.now clocks.old counts.now) k marks.old clocks.new marks.new }
{
    let mut clock = [0u32; 64];
    marks[k] = 1;
    walk::walk(
        &Tables {
            hashes,
            nodes,
            targets,
            nexts,
            clocks,
            counts,
        },
        width,
        k + 1,
        32,
        &mut clock[..width],
        marks,
    );
    put_row(&clock[..width], clocks, k * width);
}

// Caches the clock of node `k`, unless it is cached: a walk from it finds a part, and the nodes left over bring the rest.
#[cycle(cache_left_over_cache_node)]
fn cache_node(
    hashes: &[u8],
    nodes: &[u32],
    targets: &[u32],
    nexts: &[u32],
    clocks: &mut [u32],
    counts: &[u32],
    width: usize,
    k: usize,
    marks: &mut [u8],
)
    requires { Cachable (tables hashes.now nodes.now targets.now nexts.now clocks.old counts.now) width k marks.old }
    ensures { NodeCached (tables hashes.now nodes.now targets.now nexts.now clocks.old counts.now) k marks.old clocks.new marks.new }
{
    if is_cached(nodes, clocks, width, k) {
        return;
    }
    begin_cache(
        hashes, nodes, targets, nexts, clocks, counts, width, k, marks,
    );
    cache_left_over(
        hashes, nodes, targets, nexts, clocks, counts, width, k, marks,
    );
}

// Caches each marked node below `k`, the lowest first, takes its mark away, and merges its clock into row `k`.
#[cycle(cache_left_over_cache_node)]
fn cache_left_over(
    hashes: &[u8],
    nodes: &[u32],
    targets: &[u32],
    nexts: &[u32],
    clocks: &mut [u32],
    counts: &[u32],
    width: usize,
    k: usize,
    marks: &mut [u8],
)
    requires { Halfway (tables hashes.now nodes.now targets.now nexts.now clocks.old counts.now) width k marks.old }
    ensures { LeftCached (tables hashes.now nodes.now targets.now nexts.now clocks.old counts.now) k marks.old clocks.new marks.new }
{
    for i in 0..k {
        if marks[i] != 0 {
            marks[i] = 0;
            cache_node(
                hashes, nodes, targets, nexts, clocks, counts, width, i, marks,
            );
            merge_rows(clocks, i * width, k * width, width);
        }
    }
}

// Caches the clock of node `k`, and of the nodes that the walk from it leaves over: the cached nodes are afterwards those that the caching rule
// gives.
pub fn cache_clock(
    hashes: &[u8],
    nodes: &[u32],
    targets: &[u32],
    nexts: &[u32],
    clocks: &mut [u32],
    counts: &[u32],
    k: usize,
)
    requires { Valid (tables hashes.now nodes.now targets.now nexts.now clocks.old counts.now) × (k < get_or counts.now 0 0) }
    ensures { clocks.new ≡ after_caching (tables hashes.now nodes.now targets.now nexts.now clocks.old counts.now) k }
{
    let width = tables::actor_room(hashes, clocks);
    let mut marks = [0u8; 4096];
    cache_node(
        hashes, nodes, targets, nexts, clocks, counts, width, k, &mut marks,
    );
}

// Throws all cached clocks away: the rows in use become 0.
pub fn forget(
    hashes: &[u8],
    nodes: &[u32],
    targets: &[u32],
    nexts: &[u32],
    clocks: &mut [u32],
    counts: &[u32],
)
    requires { Sound (tables hashes.now nodes.now targets.now nexts.now clocks.old counts.now) }
    ensures { clocks.new ≡ forgotten (tables hashes.now nodes.now targets.now nexts.now clocks.old counts.now) }
{
    let width = tables::actor_room(hashes, clocks);
    let end = counts[0] as usize * width;
    walk::clear(&mut clocks[..end]);
}

// Whether the row of `rows` that starts at `from` is `clock`.
fn row_is(clock: &[u32], rows: &[u32], from: usize) -> bool
    requires { from + length clock.now ≤ length rows.now }
    ensures { (result ≡ true) ↔ RowIs rows.now from clock.now }
{
    (0..clock.len()).all(|a| rows[from + a] == clock[a])
}

// The clock of node `k`, by the rows below it.
fn node_clock(tables: &Tables, width: usize, k: usize, clock: &mut [u32], marks: &mut [u8])
    requires { Checkable (lists tables.now) width (length clock.old) k marks.old }
    ensures { NodeClocked (lists tables.now) k (length clock.old) marks.old clock.new marks.new }
{
    walk::clear(clock);
    let actor = tables.nodes[6 * k] as usize;
    clock[actor] = tables.nodes[6 * k + 1];
    let first = tables.nodes[6 * k + 4] as usize;
    walk::mark_links(tables.targets, tables.nexts, first, marks);
    walk::walk(tables, width, k, k, clock, marks);
}

// Whether row `k` of the clock table is right, where the rows below it are.
fn row_right(tables: &Tables, width: usize, k: usize, clock: &mut [u32], marks: &mut [u8]) -> bool
    requires { Checkable (lists tables.now) width (length clock.old) k marks.old }
    ensures { RowChecked (lists tables.now) k result marks.old marks.new }
{
    if is_cached(tables.nodes, tables.clocks, width, k) {
        node_clock(tables, width, k, clock, marks);
        return row_is(clock, tables.clocks, k * width);
    }
    walk::clear(clock);
    row_is(clock, tables.clocks, k * width)
}

// Whether the rows in use are right, in node order.
fn cache_right(tables: &Tables, width: usize, clock: &mut [u32], marks: &mut [u8]) -> bool
    requires sound { Sound (lists tables.now) × (width ≡ actor_room (lists tables.now)) }
    requires clock_len { (length clock.old ≡ width) × (get_or tables.now.counts.now 0 0 ≤ length marks.old) }
    requires by_index { (j : ℕ) → get_or marks.old j 0 ≡ 0 }
    ensures { (result ≡ true) ↔ ((k : ℕ) → k < get_or tables.now.counts.now 0 0 → RowsRight (lists tables.now) k) }
{
    let n = tables.counts[0] as usize;
    for k in 0..n {
        if !row_right(tables, width, k, clock, marks) {
            return false;
        }
    }
    true
}

// Whether the lent tables are valid.
pub fn valid(tables: &Tables) -> bool
    ensures { (result ≡ true) ↔ Valid (lists tables.now) }
{
    if !tables::sound(tables) {
        return false;
    }
    let width = tables::actor_room(tables.hashes, tables.clocks);
    let mut clock = [0u32; 64];
    let mut marks = [0u8; 4096];
    cache_right(tables, width, &mut clock[..width], &mut marks)
}
