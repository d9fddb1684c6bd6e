// The listed hashes outside the history of other listed hashes, the heads, over valid tables: ascending, each once. Nothing is changed but the lent buffer.
#![tactic(auto)]

ghost use Rattle.std.specs.Prelude.{◌≡◌, ◌+◌, ◌*◌, ◌/◌, ◌≤◌, ◌<◌, length};
ghost use Rattle.paper.specs.Lists.{tally, hash_at, hashes_of};
ghost use Rattle.paper.specs.Graph.{hist, nodes as nodes-of};
ghost use Rattle.tables.specs.Lent.{lists};
ghost use Rattle.tables.specs.Tables.{graph, changes};
ghost use Rattle.tables.specs.Valid.{Valid};
ghost use Rattle.walk.specs.Marks.{marks_of};
ghost use Rattle.answer_buffer.specs.Answers.{list_answer, filled};
ghost use Rattle.ancestors.specs.Ancestors.{hash_stays, first_kept, kept_bytes, removed_told, removed_filled};

use answer_buffer::Refusal;
use tables::Tables;

// Marks the history of the listed hashes, a 1 for each node in it, and no other.
fn history_of(tables: &Tables, list: &[u8], marks: &mut [u8])
    requires valid { Valid (lists tables.now) }
    requires counts_in_bounds { changes (lists tables.now) ≤ length marks.old }
    ensures { marks.new ≡ marks_of (hist (graph (lists tables.now)) (nodes-of (graph (lists tables.now)) (hashes_of list.now))) (length marks.old) }
{
    let mut starts = [0u32; 4096];
    let c = list_clock::starts_of(tables, list, &mut starts);
    walk::mark_history(tables, &starts[0..c], marks);
}

// Does hash i of the list stay: is it none of the first n hashes, or its node not marked?
fn is_kept(hashes: &[u8], n: usize, marks: &[u8], list: &[u8], i: usize) -> bool
    requires { (32 * n ≤ length hashes.now) × (n ≤ length marks.now) × (32 * i + 32 ≤ length list.now) }
    ensures { result ≡ hash_stays hashes.now n marks.now (hash_at list.now i) }
{
    let p = 32 * i;
    match hash::find(hashes, n, &list[p..p + 32]) {
        Some(k) => marks[k] == 0,
        None => true,
    }
}

// Does hash i of the list stay, and stand nowhere before?
fn is_first_kept(hashes: &[u8], n: usize, marks: &[u8], list: &[u8], i: usize) -> bool
    requires { (32 * n ≤ length hashes.now) × (n ≤ length marks.now) × (32 * i + 32 ≤ length list.now) }
    ensures { result ≡ first_kept hashes.now n marks.now list.now i }
{
    let p = 32 * i;
    hash::find(list, i, &list[p..p + 32]).is_none() && is_kept(hashes, n, marks, list, i)
}

// How many different hashes of the list stay.
fn count_kept(hashes: &[u8], n: usize, marks: &[u8], list: &[u8]) -> usize
    requires { (32 * n ≤ length hashes.now) × (n ≤ length marks.now) }
    ensures { result ≡ tally (first_kept hashes.now n marks.now list.now) (length list.now / 32) }
{
    let m = list.len() / 32;
    let mut c: usize = 0;
    for i in 0..m {
        c += usize::from(is_first_kept(hashes, n, marks, list, i));
    }
    c
}

// The hashes of the list that stay, ascending, each once.
fn kept_into(
    hashes: &[u8],
    n: usize,
    marks: &[u8],
    list: &[u8],
    out: &mut [u8],
) -> Result<usize, Refusal>
    requires { (32 * n ≤ length hashes.now) × (n ≤ length marks.now) }
    ensures value { result ≡ list_answer (kept_bytes hashes.now n marks.now list.now) (length out.old) }
    ensures out_after { out.new ≡ filled (kept_bytes hashes.now n marks.now list.now) out.old }
{
    let count = count_kept(hashes, n, marks, list);
    if out.len() / 32 < count {
        return Err(Refusal::Short);
    }
    let m = list.len() / 32;
    let mut c: usize = 0;
    for i in 0..m {
        if is_kept(hashes, n, marks, list, i) {
            c = answer_buffer::enter_hash(out, c, list, i);
        }
    }
    Ok(32 * c)
}

// The listed hashes outside the history of the heads given, ascending, each once. Unknown ones stay, unknown heads count for nothing.
pub fn remove_ancestors(
    tables: &Tables,
    list: &[u8],
    heads: &[u8],
    out: &mut [u8],
) -> Result<usize, Refusal>
    requires { Valid (lists tables.now) }
    ensures value { result ≡ removed_told (graph (lists tables.now)) list.now heads.now (length out.old) }
    ensures out_after { out.new ≡ removed_filled (graph (lists tables.now)) list.now heads.now out.old }
{
    if list.len() % 32 != 0 || heads.len() % 32 != 0 {
        return Err(Refusal::Malformed);
    }
    let n = tables.counts[0] as usize;
    let mut marks = [0u8; 4096];
    history_of(tables, heads, &mut marks);
    kept_into(tables.hashes, n, &marks, list, out)
}
