// The clock of a list of hashes over valid tables, and the nodes that a walk from the list starts at. Nothing is changed but the lent buffer, and nothing is cached.
#![tactic(auto)]

ghost use Rattle.std.specs.Prelude.{◌≡◌, ℕ, ◌+◌, ◌*◌, ◌/◌, ◌≤◌, ◌<◌, length, replicate};
ghost use Rattle.paper.specs.Lists.{pick, each_below, hashes_of};
ghost use Rattle.paper.specs.Graph.{known, nodes as nodes-of};
ghost use Rattle.tables.specs.Lent.{lists};
ghost use Rattle.tables.specs.Tables.{graph, changes, actors, actor_room};
ghost use Rattle.tables.specs.Valid.{Valid};
ghost use Rattle.walk.specs.Marks.{marked};
ghost use Rattle.answer_buffer.specs.AnswerLaws.{Holds};
ghost use Rattle.list_clock.specs.Known.{KnownMarks};
ghost use Rattle.list_clock.specs.Clocks.{clock_entries, Entries, clock_told, clock_filled};

use answer_buffer::Refusal;
use tables::Tables;

// Marks the nodes of the known ones among the listed hashes.
fn mark_known(tables: &Tables, list: &[u8], marks: &mut [u8])
    requires valid { Valid (lists tables.now) }
    requires counts_in_bounds { changes (lists tables.now) ≤ length marks.old }
    ensures { KnownMarks (graph (lists tables.now)) list.now (length list.now / 32) marks.old marks.new }
{
    let n = tables.counts[0] as usize;
    let m = list.len() / 32;
    for i in 0..m {
        let p = 32 * i;
        if let Some(k) = hash::find(tables.hashes, n, &list[p..p + 32]) {
            marks[k] = 1;
        }
    }
}

// Lists the marked ones of the first n nodes. Answers how many they are.
fn collect(marks: &[u8], n: usize, out: &mut [u32]) -> usize
    requires { (n ≤ length marks.now) × (n ≤ length out.old) × (n ≤ 4096) }
    ensures { Holds (pick (marked marks.now) n) out.old out.new result }
{
    let mut c: usize = 0;
    for k in 0..n {
        if 0 < marks[k] {
            out[c] = k as u32;
            c += 1;
        }
    }
    c
}

// Lists the nodes of the known ones among the listed hashes, each once. Answers how many they are.
pub fn starts_of(tables: &Tables, list: &[u8], out: &mut [u32]) -> usize
    requires valid { Valid (lists tables.now) }
    requires counts_in_bounds { changes (lists tables.now) ≤ length out.old }
    ensures { Holds (pick (known (graph (lists tables.now)) (nodes-of (graph (lists tables.now)) (hashes_of list.now))) (changes (lists tables.now))) out.old out.new result }
{
    let n = tables.counts[0] as usize;
    let mut marks = [0u8; 4096];
    mark_known(tables, list, &mut marks);
    collect(&marks, n, out)
}

// The clock of the listed hashes by a walk from their nodes, into `clock`.
fn walk_into(tables: &Tables, list: &[u8], clock: &mut [u32])
    requires valid { Valid (lists tables.now) }
    requires counts_in_bounds { (actors (lists tables.now) ≤ length clock.old) × (length clock.old ≤ actor_room (lists tables.now)) }
    ensures { clock.new ≡ each_below (clock_entries (graph (lists tables.now)) list.now) (length clock.old) }
{
    let mut starts = [0u32; 4096];
    let c = starts_of(tables, list, &mut starts);
    walk::clock_of(tables, &starts[0..c], clock);
}

// The clock of the listed hashes, into `clock`. An empty list needs no walk.
pub fn clock_into(tables: &Tables, list: &[u8], clock: &mut [u32])
    requires valid { Valid (lists tables.now) }
    requires counts_in_bounds { (actors (lists tables.now) ≤ length clock.old) × (length clock.old ≤ actor_room (lists tables.now)) }
    ensures { clock.new ≡ each_below (clock_entries (graph (lists tables.now)) list.now) (length clock.old) }
{
    if list.is_empty() {
        walk::clear(clock);
    } else {
        walk_into(tables, list, clock);
    }
}

// The clock of the listed hashes, into the first entries of `clock`, an entry for each actor.
pub fn list_clock(tables: &Tables, list: &[u8], clock: &mut [u32])
    requires valid { Valid (lists tables.now) }
    requires in_bounds { 64 ≤ length clock.old }
    ensures { Entries (lists tables.now) list.now clock.old clock.new }
{
    let a = tables.counts[2] as usize;
    clock_into(tables, list, &mut clock[0..a]);
}

// The sequence clock of the listed hashes, an entry for each actor.
pub fn seq_clock_for_heads(tables: &Tables, list: &[u8], out: &mut [u32]) -> Result<usize, Refusal>
    requires { Valid (lists tables.now) }
    ensures value { result ≡ clock_told (lists tables.now) list.now (length out.old) }
    ensures out_after { out.new ≡ clock_filled (lists tables.now) list.now out.old }
{
    if list.len() % 32 != 0 {
        return Err(Refusal::Malformed);
    }
    let a = tables.counts[2] as usize;
    if out.len() < a {
        return Err(Refusal::Short);
    }
    clock_into(tables, list, &mut out[0..a]);
    Ok(a)
}
