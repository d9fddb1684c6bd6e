// Whether a list of hashes names exactly the heads of a graph in valid tables, order and repeats ignored. Nothing is changed.
#![tactic(auto)]

ghost use Rattle.std.specs.Prelude.{◌≡◌, ◌+◌, ◌*◌, ◌/◌, ◌≤◌, ◌<◌, length};
ghost use Rattle.paper.specs.Lists.{some_below, all_below, hash_at, names, hashes_of};
ghost use Rattle.tables.specs.Lent.{lists};
ghost use Rattle.tables.specs.Tables.{graph};
ghost use Rattle.tables.specs.Valid.{Valid};
ghost use Rattle.current_heads.specs.Current.{head_is, head_named, current_told};

use answer_buffer::Refusal;
use tables::Tables;

// Is node k a head, and the hash its own?
fn head_is(hashes: &[u8], nodes: &[u32], hash: &[u8], k: usize) -> bool
    requires { (32 * k + 32 ≤ length hashes.now) × (6 * k + 6 ≤ length nodes.now) × (length hash.now ≡ 32) }
    ensures { result ≡ head_is hashes.now nodes.now hash.now k }
{
    nodes[6 * k + 5] == 1 && hash::same_at(hashes, k, hash)
}

// Is the hash that of a head among the first n nodes?
fn is_head(hashes: &[u8], nodes: &[u32], n: usize, hash: &[u8]) -> bool
    requires { (32 * n ≤ length hashes.now) × (6 * n ≤ length nodes.now) × (length hash.now ≡ 32) }
    ensures { result ≡ some_below (head_is hashes.now nodes.now hash.now) n }
{
    for k in 0..n {
        if head_is(hashes, nodes, hash, k) {
            return true;
        }
    }
    false
}

// Is every listed hash that of a head among the first n nodes?
fn listed_are_heads(hashes: &[u8], nodes: &[u32], n: usize, list: &[u8]) -> bool
    requires { (32 * n ≤ length hashes.now) × (6 * n ≤ length nodes.now) }
    ensures { result ≡ all_below (λ i. some_below (head_is hashes.now nodes.now (hash_at list.now i)) n) (length list.now / 32) }
{
    let m = list.len() / 32;
    for i in 0..m {
        let p = 32 * i;
        if !is_head(hashes, nodes, n, &list[p..p + 32]) {
            return false;
        }
    }
    true
}

// Is the hash listed?
fn is_listed(list: &[u8], hash: &[u8]) -> bool
    requires { length hash.now ≡ 32 }
    ensures { result ≡ names hash.now (hashes_of list.now) }
{
    hash::find(list, list.len() / 32, hash).is_some()
}

// Is node k no head, or its hash listed?
fn head_named(hashes: &[u8], nodes: &[u32], list: &[u8], k: usize) -> bool
    requires { (32 * k + 32 ≤ length hashes.now) × (6 * k + 6 ≤ length nodes.now) }
    ensures { result ≡ head_named hashes.now nodes.now list.now k }
{
    let p = 32 * k;
    nodes[6 * k + 5] != 1 || is_listed(list, &hashes[p..p + 32])
}

// Is every head among the first n nodes listed?
fn heads_are_listed(hashes: &[u8], nodes: &[u32], n: usize, list: &[u8]) -> bool
    requires { (32 * n ≤ length hashes.now) × (6 * n ≤ length nodes.now) }
    ensures { result ≡ all_below (head_named hashes.now nodes.now list.now) n }
{
    for k in 0..n {
        if !head_named(hashes, nodes, list, k) {
            return false;
        }
    }
    true
}

// Does the list name exactly the heads, order and repeats ignored?
pub fn heads_are_current(tables: &Tables, list: &[u8]) -> Result<bool, Refusal>
    requires { Valid (lists tables.now) }
    ensures { result ≡ current_told (graph (lists tables.now)) list.now }
{
    if list.len() % 32 != 0 {
        return Err(Refusal::Malformed);
    }
    let n = tables.counts[0] as usize;
    Ok(
        listed_are_heads(tables.hashes, tables.nodes, n, list)
            && heads_are_listed(tables.hashes, tables.nodes, n, list),
    )
}
