// The clock walk: marks, the walk from the highest marked node down, the clock of a list of nodes, and its history.
#![tactic(auto)]

ghost use Rattle.std.specs.Prelude.{◌≡◌, ℕ, ◌+◌, ◌≤◌, ◌<◌, length, get_or, replicate};
ghost use Rattle.paper.specs.Lists.{each_below};
ghost use Rattle.paper.specs.Graph.{hist, clock as clockOf};
ghost use Rattle.tables.specs.Lent.{lists};
ghost use Rattle.tables.specs.Tables.{graph, along};
ghost use Rattle.tables.specs.Valid.{Valid, Sound};
ghost use Rattle.walk.specs.Marks.{MarkedBy, Chain, Bits, Known, marks_of};
ghost use Rattle.walk.specs.Rows.{Walkable};
ghost use Rattle.walk.specs.Walk.{Merged, Visited, WalkDone, Spread, Asked};

use tables::Tables;

// Marks the targets of the edge list that starts at link `first`, an edge + 1; 0 is the empty list.
pub fn mark_links(targets: &[u32], nexts: &[u32], first: usize, marks: &mut [u8])
    requires { Chain targets.now nexts.now (length marks.old) first × (length nexts.now ≡ length targets.now) }
    ensures { MarkedBy (along targets.now nexts.now first) marks.old marks.new }
{
    // This loop follows links and counts nothing.
    let mut e = first;
    while e != 0 {
        let t = targets[e - 1] as usize;
        marks[t] = 1;
        e = nexts[e - 1] as usize;
    }
}

// Marks the listed nodes.
pub fn mark_list(starts: &[u32], marks: &mut [u8])
    requires { (i : ℕ) → i < length starts.now → get_or starts.now i 0 < length marks.old }
    ensures { MarkedBy starts.now marks.old marks.new }
{
    for t in starts {
        marks[*t as usize] = 1;
    }
}

// Merges the row of `rows` that starts at `from` into `clock`.
pub fn merge_row(clock: &mut [u32], rows: &[u32], from: usize)
    requires { from + length clock.old ≤ length rows.now }
    ensures { Merged rows.now from clock.old clock.new }
{
    for a in 0..clock.len() {
        clock[a] = clock[a].max(rows[from + a]);
    }
}

// Visits the marked node `k`: takes its mark away, includes its sequence in `clock`, and merges its cached clock or else marks its
// dependencies. Whether its clock is cached.
fn visit(tables: &Tables, width: usize, k: usize, clock: &mut [u32], marks: &mut [u8]) -> bool
    requires walkable { Walkable (lists tables.now) width (length clock.old) (k + 1) }
    requires k_in_bounds { (k < length marks.old) × (0 < get_or marks.old k 0) }
    ensures { Visited (lists tables.now) k clock.old marks.old clock.new marks.new result }
{
    marks[k] = 0;
    let actor = tables.nodes[6 * k] as usize;
    clock[actor] = clock[actor].max(tables.nodes[6 * k + 1]);
    let row = k * width;
    if tables.clocks[row + actor] != 0 {
        merge_row(clock, tables.clocks, row);
        return true;
    }
    let first = tables.nodes[6 * k + 4] as usize;
    mark_links(tables.targets, tables.nexts, first, marks);
    false
}

// Walks from the marked nodes below `top`, the highest first. At a node whose clock is not cached it stops once it has visited more than
// `limit`, and leaves the marks of what is left over.
pub fn walk(
    tables: &Tables,
    width: usize,
    top: usize,
    limit: usize,
    clock: &mut [u32],
    marks: &mut [u8],
)
    requires walkable { Walkable (lists tables.now) width (length clock.old) top }
    requires top_in_bounds { top ≤ length marks.old }
    ensures { WalkDone (lists tables.now) top limit clock.old marks.old clock.new marks.new }
{
    let mut visited: usize = 0;
    for k in (0..top).rev() {
        if marks[k] != 0 {
            visited += 1;
            let kept = visit(tables, width, k, clock, marks);
            if !kept && limit < visited {
                break;
            }
        }
    }
}

// Sets every entry to 0.
pub fn clear(clock: &mut [u32])
    ensures { clock.new ≡ replicate (length clock.old) 0 }
{
    clock.fill(0);
}

// The clock of the listed nodes, into `clock`: an entry for each actor in use, at most one for each that there is room for.
pub fn clock_of(tables: &Tables, starts: &[u32], clock: &mut [u32])
    requires valid { Valid (lists tables.now) }
    requires asked { Asked (lists tables.now) starts.now (length clock.old) }
    ensures { clock.new ≡ each_below (clockOf (graph (lists tables.now)) starts.now) (length clock.old) }
{
    let n = tables.counts[0] as usize;
    let width = tables::actor_room(tables.hashes, tables.clocks);
    let mut marks = [0u8; 4096];
    clear(clock);
    mark_list(starts, &mut marks);
    walk(tables, width, n, n, clock, &mut marks);
}

// Marks the histories of the marked nodes.
fn spread(tables: &Tables, marks: &mut [u8])
    requires sound { Sound (lists tables.now) }
    requires counts_in_bounds { (get_or tables.now.counts.now 0 0 ≤ length marks.old) × Bits marks.old }
    ensures { Spread (lists tables.now) marks.old marks.new }
{
    let n = tables.counts[0] as usize;
    for k in (0..n).rev() {
        if marks[k] != 0 {
            let first = tables.nodes[6 * k + 4] as usize;
            mark_links(tables.targets, tables.nexts, first, marks);
        }
    }
}

// Marks the history of the listed nodes, a 1 for each node in it, and no other.
pub fn mark_history(tables: &Tables, starts: &[u32], marks: &mut [u8])
    requires sound { Sound (lists tables.now) }
    requires counts_in_bounds { (get_or tables.now.counts.now 0 0 ≤ length marks.old) × Known tables.now.counts.now starts.now }
    ensures { marks.new ≡ marks_of (hist (graph (lists tables.now)) starts.now) (length marks.old) }
{
    marks.fill(0);
    mark_list(starts, marks);
    spread(tables, marks);
}
