// The op clock of a list of hashes over valid tables: for each actor the max op of its change at the largest sequence in the list's history. Nothing is changed but the lent buffer.
#![tactic(auto)]

ghost use Rattle.std.specs.Prelude.{◌≡◌, length};
ghost use Rattle.paper.specs.Lists.{each_below};
ghost use Rattle.tables.specs.Lent.{lists};
ghost use Rattle.tables.specs.Valid.{Valid};
ghost use Rattle.op_clock.specs.OpClocks.{latest_at, Placed, op_clock_told, op_clock_filled};

use answer_buffer::Refusal;
use tables::Tables;

// For each actor the max op of its change among the first n nodes whose sequence is its entry in `clock`, or 0.
fn ops_into(nodes: &[u32], n: usize, clock: &[u32], out: &mut [u32])
    requires { Placed nodes.now n clock.now (length out.old) }
    ensures { out.new ≡ each_below (latest_at nodes.now clock.now n) (length out.old) }
{
    walk::clear(out);
    for k in 0..n {
        let a = nodes[6 * k] as usize;
        if nodes[6 * k + 1] == clock[a] {
            out[a] = nodes[6 * k + 2];
        }
    }
}

// The op clock of the listed hashes, an entry for each actor.
pub fn clock_at(tables: &Tables, list: &[u8], out: &mut [u32]) -> Result<usize, Refusal>
    requires { Valid (lists tables.now) }
    ensures value { result ≡ op_clock_told (lists tables.now) list.now (length out.old) }
    ensures out_after { out.new ≡ op_clock_filled (lists tables.now) list.now out.old }
{
    if list.len() % 32 != 0 {
        return Err(Refusal::Malformed);
    }
    let a = tables.counts[2] as usize;
    if out.len() < a {
        return Err(Refusal::Short);
    }
    let mut clock = [0u32; 64];
    list_clock::list_clock(tables, list, &mut clock);
    let n = tables.counts[0] as usize;
    ops_into(tables.nodes, n, &clock, &mut out[0..a]);
    Ok(a)
}
