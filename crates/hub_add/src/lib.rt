// Adding a change through the C face, over edge records. It checks what it is lent: it has no `requires`.
// `cg_add` unpacks the records and packs them again; between the two `add_checked` checks the tables and calls the core.
// `add_checked` stands apart: the first edges of two local tables are lent to it by `&mut`, and packed again after it.
// Tables that are written are taken one by one: two `&mut` of one struct are lent in no call that the borrow checker covers (tried in `graph::store`).
#![tactic(auto)]

ghost use Rattle.std.specs.Prelude.{◌≡◌};
ghost use Rattle.tables.specs.Tables.{tables};
ghost use Rattle.judge.specs.Judge.{change};
ghost use Rattle.judge.specs.Judged.{lent_change};
ghost use Rattle.edges.specs.Edges.{lent};
ghost use Rattle.hub_add.specs.Operations.{Added, unknown_in};

use edges::Edge;
use judge::{AddRefusal, Change};
use tables::Tables;

// Tells the position of the first unknown dependency, where there is one.
fn tell_unknown(judged: Result<(), AddRefusal>, unknown: &mut [u64])
    ensures { unknown.new ≡ unknown_in judged unknown.old }
{
    if let Err(AddRefusal::Unknown(i)) = judged {
        lent_place::tell(unknown, i as u64);
    }
}

// Judges the change and, where it is accepted, stores it. On every number but 0 no table changes; on 4, and then alone, the place for the unknown one does.
fn add_checked(
    hashes: &mut [u8],
    nodes: &mut [u32],
    targets: &mut [u32],
    nexts: &mut [u32],
    clocks: &mut [u32],
    counts: &mut [u32],
    added: &Change,
    unknown: &mut [u64],
) -> u32
    ensures { Added (lent_change added.now) unknown.old unknown.new (tables hashes.old nodes.old targets.old nexts.old clocks.old counts.old) result (tables hashes.new nodes.new targets.new nexts.new clocks.new counts.new) }
{
    if !cache::valid(&Tables {
        hashes,
        nodes,
        targets,
        nexts,
        clocks,
        counts,
    }) {
        return 1;
    }
    let judged = graph::add(hashes, nodes, targets, nexts, clocks, counts, added);
    tell_unknown(judged, unknown);
    judge::number(judged)
}

#[unsafe(no_mangle)]
pub extern "C" fn cg_add(
    hashes: &mut [u8],
    nodes: &mut [u32],
    edges: &mut [Edge],
    clocks: &mut [u32],
    counts: &mut [u32],
    hash: &[u8],
    actor: u64,
    seq: u64,
    max: u64,
    ops: u64,
    deps: &[u8],
    unknown: &mut [u64],
) -> u32
    ensures { Added (change hash.now actor seq max ops deps.now) unknown.old unknown.new (lent hashes.old nodes.old edges.old clocks.old counts.old) result (lent hashes.new nodes.new edges.new clocks.new counts.new) }
{
    let e = edges.len();
    if 16384 < e {
        return 1;
    }
    let change = Change {
        hash,
        actor,
        seq,
        max_op: max,
        ops,
        deps,
    };
    let mut targets = [0u32; 16384];
    let mut nexts = [0u32; 16384];
    edges::unpack(edges, &mut targets, &mut nexts);
    let r = add_checked(
        hashes,
        nodes,
        &mut targets[..e],
        &mut nexts[..e],
        clocks,
        counts,
        &change,
        unknown,
    );
    edges::pack(&targets, &nexts, edges);
    r
}
