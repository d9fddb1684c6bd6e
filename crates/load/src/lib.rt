// Loading decoded columns: they are judged by themselves, and where they are accepted the graph is opened and their changes are added in
// order. On any other answer nothing is changed.
// Tables that are written are taken one by one: two `&mut` of one struct are lent in no call that the borrow checker covers (tried in `graph::store`).
#![tactic(auto)]

ghost use Rattle.std.specs.Prelude.{◌≡◌, ◌++◌, ◌*◌, ◌≤◌, ◌<◌, length, get_or, drop};
ghost use Rattle.paper.specs.Lists.{hash_at};
ghost use Rattle.paper.specs.Loading.{listed_changes, hashes_at, changes_of};
ghost use Rattle.tables.specs.Tables.{tables};
ghost use Rattle.tables.specs.Valid.{Lengths, Valid};
ghost use Rattle.judge.specs.Judge.{change};
ghost use Rattle.graph.specs.Place.{added_tables, adds};
ghost use Rattle.columns.specs.Columns.{listed, loading_outcome};
ghost use Rattle.load.specs.Load.{Inside, Fillable, loading, loaded};

use columns::{Columns, LoadRefusal};
use judge::Change;

// Writes the hashes of the nodes, one after the other, to the front of the buffer.
fn put_hashes(ids: &[u8], deps: &[u64], out: &mut [u8])
    requires inside { Inside ids.now deps.now }
    requires deps_in_bounds { 32 * length deps.now ≤ length out.old }
    ensures { out.new ≡ hashes_at ids.now deps.now ++ drop (32 * length deps.now) out.old }
{
    for i in 0..deps.len() {
        let p = 32 * (deps[i] as usize);
        graph::put_bytes(out, 32 * i, &ids[p..p + 32]);
    }
}

// Adds change k of the columns, with its dependencies by their hashes.
fn add_listed(
    hashes: &mut [u8],
    nodes: &mut [u32],
    targets: &mut [u32],
    nexts: &mut [u32],
    clocks: &mut [u32],
    counts: &mut [u32],
    columns: &Columns,
    k: usize,
    deps: &[u64],
)
    requires valid { Valid (tables hashes.old nodes.old targets.old nexts.old clocks.old counts.old) }
    requires fillable { Fillable (listed columns.now) }
    requires k_in_bounds { (k < listed_changes (listed columns.now)) × (length deps.now ≤ 32) × Inside columns.now.ids.now deps.now }
    ensures { tables hashes.new nodes.new targets.new nexts.new clocks.new counts.new ≡ added_tables (tables hashes.old nodes.old targets.old nexts.old clocks.old counts.old) (change (hash_at columns.now.ids.now k) (get_or columns.now.actors.now k 0) (get_or columns.now.seqs.now k 0) (get_or columns.now.maxes.now k 0) (get_or columns.now.ops.now k 0) (hashes_at columns.now.ids.now deps.now)) }
{
    let mut bytes = [0u8; 1024];
    put_hashes(columns.ids, deps, &mut bytes);
    let p = 32 * k;
    let _ = graph::add(
        hashes,
        nodes,
        targets,
        nexts,
        clocks,
        counts,
        &Change {
            hash: &columns.ids[p..p + 32],
            actor: columns.actors[k],
            seq: columns.seqs[k],
            max_op: columns.maxes[k],
            ops: columns.ops[k],
            deps: &bytes[..32 * deps.len()],
        },
    );
}

// Adds the changes of the columns, in order.
fn fill(
    hashes: &mut [u8],
    nodes: &mut [u32],
    targets: &mut [u32],
    nexts: &mut [u32],
    clocks: &mut [u32],
    counts: &mut [u32],
    columns: &Columns,
)
    requires valid { Valid (tables hashes.old nodes.old targets.old nexts.old clocks.old counts.old) }
    requires fillable { Fillable (listed columns.now) }
    ensures { tables hashes.new nodes.new targets.new nexts.new clocks.new counts.new ≡ adds (tables hashes.old nodes.old targets.old nexts.old clocks.old counts.old) (changes_of (listed columns.now)) }
{
    let mut at: usize = 0;
    for k in 0..columns.ids.len() / 32 {
        let d = columns.deps[k] as usize;
        let deps = &columns.values[at..at + d];
        add_listed(
            hashes, nodes, targets, nexts, clocks, counts, columns, k, deps,
        );
        at += d;
    }
}

// Judges the columns and, if they are accepted, replaces what the tables hold by the graph that they list.
pub fn load(
    hashes: &mut [u8],
    nodes: &mut [u32],
    targets: &mut [u32],
    nexts: &mut [u32],
    clocks: &mut [u32],
    counts: &mut [u32],
    columns: &Columns,
) -> Result<(), LoadRefusal>
    requires { Lengths (tables hashes.old nodes.old targets.old nexts.old clocks.old counts.old) }
    ensures result_value { loading_outcome result ≡ loading (tables hashes.old nodes.old targets.old nexts.old clocks.old counts.old) (listed columns.now) }
    ensures counts_after { tables hashes.new nodes.new targets.new nexts.new clocks.new counts.new ≡ loaded (tables hashes.old nodes.old targets.old nexts.old clocks.old counts.old) (listed columns.now) }
{
    let rows = tables::actor_room(hashes, clocks);
    columns.judge(hashes.len() / 32, targets.len(), rows)?;
    counts[0] = 0;
    counts[1] = 0;
    counts[2] = columns.count as u32;
    fill(hashes, nodes, targets, nexts, clocks, counts, columns);
    Ok(())
}
