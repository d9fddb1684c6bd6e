// The edge table as the caller lends it: records of target and next.
// The cores work on two plain tables; `unpack` and `pack` go between the two forms, and `parents_into` walks the records themselves.
#![tactic(auto)]

ghost use Rattle.std.specs.Prelude.{◌≡◌, ◌++◌, ℕ, ◌<◌, ◌≤◌, ◌-◌, min, length, set, get_or, drop, IfSome, IfNone};
ghost use Rattle.edges.specs.Edges.{no_edge, targets_of, nexts_of, local_room, blank, taken_targets, taken_nexts, packed, goes_on, parents_in};

// An edge: the node that it leads to, and the number + 1 of the next edge of its list, or 0 at the end.
#[repr(C)]
#[derive(Clone, Copy)]
pub struct Edge {
    pub target: u32,
    pub next: u32,
}

// The records' targets and nexts, as many as all three tables have room for. What lies past them stays.
pub fn unpack(edges: &[Edge], targets: &mut [u32], nexts: &mut [u32])
    ensures { (targets.new ≡ taken_targets edges.now targets.old nexts.old) × (nexts.new ≡ taken_nexts edges.now targets.old nexts.old) }
{
    let m = edges.len().min(targets.len().min(nexts.len()));
    for i in 0..m {
        targets[i] = edges[i].target;
        nexts[i] = edges[i].next;
    }
}

// Of two tables that the records were unpacked into, the targets and the nexts of all records, or None where these are more than the room.
pub fn unpacked<'a>(
    edges: &[Edge],
    targets: &'a [u32],
    nexts: &'a [u32],
) -> Option<(&'a [u32], &'a [u32])>
    requires { (targets.now ≡ taken_targets edges.now blank blank) × (nexts.now ≡ taken_nexts edges.now blank blank) }
    ensures some { IfSome result (λ parts. (parts.0.now ≡ targets_of edges.now) × (parts.1.now ≡ nexts_of edges.now)) }
    ensures none { IfNone result (local_room < length edges.now) }
{
    let e = edges.len();
    Some((targets.get(..e)?, nexts.get(..e)?))
}

// The two tables as records, as many as all three tables have room for. What lies past them stays.
pub fn pack(targets: &[u32], nexts: &[u32], edges: &mut [Edge])
    ensures { edges.new ≡ packed targets.now nexts.now edges.old }
{
    let m = edges.len().min(targets.len().min(nexts.len()));
    for i in 0..m {
        edges[i] = Edge {
            target: targets[i],
            next: nexts[i],
        };
    }
}

// Whether a walk goes on after n edges: there is such an edge, not every edge was met, and there is room for its target.
fn more(at: u32, n: usize, edges: usize, out: usize) -> bool
    ensures { result ≡ goes_on at n edges out }
{
    at != 0 && at as usize <= edges && n < edges && n < out
}

// One step along next, with the target put down.
fn step(edges: &[Edge], at: u32, out: &mut [u32], n: usize) -> u32
    requires { (0 < at) × (at ≤ length edges.now) × (n < length out.old) }
    ensures { (result ≡ (get_or edges.now (at - 1) no_edge).next) × (out.new ≡ set out.old n (get_or edges.now (at - 1) no_edge).target) }
{
    let i = (at - 1) as usize;
    out[n] = edges[i].target;
    edges[i].next
}

// The targets along next from the edge `first` - 1, in order, and how many they are: as many as `out` has room for.
// A list that runs in a ring ends once as many edges were met as there are; one that leaves the table ends there.
pub fn parents_into(edges: &[Edge], first: u32, out: &mut [u32]) -> usize
    ensures { (result ≡ length (parents_in edges.now first out.old)) × (out.new ≡ parents_in edges.now first out.old ++ drop result out.old) }
{
    let mut at = first;
    let mut n: usize = 0;
    // A walk along the links, which ends where a test of them fails: no count is known before, so no `for` is plainer.
    while more(at, n, edges.len(), out.len()) {
        at = step(edges, at, out, n);
        n += 1;
    }
    n
}
