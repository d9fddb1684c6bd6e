// The dependencies of a hash, in listed order with repeats: where its list of edges begins, and the hashes of the nodes that a walk along that list put down.
// Nothing is changed but the lent buffer.
#![tactic(auto)]

ghost use Rattle.std.specs.Prelude.{◌≡◌, ℕ, length};
ghost use Rattle.tables.specs.Lent.{lists};
ghost use Rattle.tables.specs.Tables.{graph};
ghost use Rattle.tables.specs.Valid.{Valid};
ghost use Rattle.deps.specs.Deps.{deps_told, deps_filled};
ghost use Rattle.deps.specs.Parents.{edge_of_hash, DepsListed};

use answer_buffer::Refusal;
use tables::Tables;

// The number + 1 of the first edge of a hash, or 0 where it has none. Nothing is asked of the tables: 0 too where they are too short, or the hash is no hash.
pub fn first_edge(hashes: &[u8], nodes: &[u32], counts: &[u32], hash: &[u8]) -> u32
    ensures { result ≡ edge_of_hash hashes.now nodes.now counts.now hash.now }
{
    let n = counts.first().copied().unwrap_or(0) as usize;
    if hash.len() != 32 || hashes.len() < 32 * n {
        return 0;
    }
    let Some(k) = hash::find(hashes, n, hash) else {
        return 0;
    };
    nodes.get(6 * k + 4).copied().unwrap_or(0)
}

// The hashes of the dependencies of a hash, which are the first n of `parents`. An unknown hash has none.
pub fn deps_for_hash(
    tables: &Tables,
    hash: &[u8],
    parents: &[u32],
    n: usize,
    out: &mut [u8],
) -> Result<usize, Refusal>
    requires { Valid (lists tables.now) × DepsListed (lists tables.now) hash.now parents.now n }
    ensures value { result ≡ deps_told (graph (lists tables.now)) hash.now (length out.old) }
    ensures out_after { out.new ≡ deps_filled (graph (lists tables.now)) hash.now out.old }
{
    if hash.len() != 32 {
        return Err(Refusal::Malformed);
    }
    if out.len() / 32 < n {
        return Err(Refusal::Short);
    }
    for i in 0..n {
        answer_buffer::put_hash(out, 32 * i, tables.hashes, parents[i] as usize);
    }
    Ok(32 * n)
}
