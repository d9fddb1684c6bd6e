// Whether a graph in valid tables is chained: one pass over the nodes and their edges. Nothing is changed.
#![tactic(auto)]

ghost use Rattle.std.specs.Prelude.{◌≡◌, ◌+◌, ◌*◌, ◌≤◌, ◌<◌, length};
ghost use Rattle.tables.specs.Lent.{lists};
ghost use Rattle.tables.specs.Tables.{graph, along, first_at};
ghost use Rattle.tables.specs.Valid.{Valid};
ghost use Rattle.walk.specs.Marks.{Chain};
ghost use Rattle.chained.specs.Chained.{some_in, precedes, linked, chained};

use tables::Tables;

// Is node j the change of node k's actor that precedes node k?
fn is_preceding(nodes: &[u32], j: usize, k: usize) -> bool
    requires { (6 * j + 6 ≤ length nodes.now) × (6 * k + 6 ≤ length nodes.now) }
    ensures { result ≡ precedes nodes.now k j }
{
    nodes[6 * j] == nodes[6 * k] && u64::from(nodes[6 * k + 1]) == u64::from(nodes[6 * j + 1]) + 1
}

// Is one of the targets of the edge list that starts at link `first`, an edge + 1 or 0, the change that precedes node k?
fn names_preceding(nodes: &[u32], targets: &[u32], nexts: &[u32], first: usize, k: usize) -> bool
    requires { Chain targets.now nexts.now k first × (length nexts.now ≡ length targets.now) × (6 * k + 6 ≤ length nodes.now) }
    ensures { result ≡ some_in (precedes nodes.now k) (along targets.now nexts.now first) }
{
    // This loop follows links and counts nothing.
    let mut e = first;
    while e != 0 {
        let j = targets[e - 1] as usize;
        if is_preceding(nodes, j, k) {
            return true;
        }
        e = nexts[e - 1] as usize;
    }
    false
}

// Is node k its actor's first change, or does it name the one before?
fn is_linked(nodes: &[u32], targets: &[u32], nexts: &[u32], k: usize) -> bool
    requires { Chain targets.now nexts.now k (first_at nodes.now k) × (length nexts.now ≡ length targets.now) × (6 * k + 6 ≤ length nodes.now) }
    ensures { result ≡ linked nodes.now targets.now nexts.now k }
{
    let first = nodes[6 * k + 4] as usize;
    nodes[6 * k + 1] <= 1 || names_preceding(nodes, targets, nexts, first, k)
}

// Does every change with sequence 2 or more name its actor's preceding change among its own dependencies?
pub fn is_chained(tables: &Tables) -> bool
    requires { Valid (lists tables.now) }
    ensures { result ≡ chained (graph (lists tables.now)) }
{
    let n = tables.counts[0] as usize;
    (0..n).all(|k| is_linked(tables.nodes, tables.targets, tables.nexts, k))
}
