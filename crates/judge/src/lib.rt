// Judging a change: what adding it would come to. Nothing is changed.
#![tactic(auto)]

ghost use Rattle.std.specs.Prelude.{◌≡◌, ◌*◌, ◌≤◌, length};
ghost use Rattle.tables.specs.Lent.{lists};
ghost use Rattle.tables.specs.Valid.{Valid, count_of};
ghost use Rattle.judge.specs.Judged.{lent_change};
ghost use Rattle.judge.specs.Judge.{tables_judged, judged_number, add_refusal_number};

use tables::Tables;

// A change as it is lent: its hash, its actor and that one's sequence, its max op, how many ops, and the hashes of its dependencies.
#[derive(Clone, Copy)]
pub struct Change<'a> {
    pub hash: &'a [u8],
    pub actor: u64,
    pub seq: u64,
    pub max_op: u64,
    pub ops: u64,
    pub deps: &'a [u8],
}

// Why a change is not added. The first unknown dependency is named by its place.
#[derive(Clone, Copy, PartialEq, Eq, Debug)]
pub enum AddRefusal {
    Malformed,
    Known,
    Unknown(usize),
    NoActor,
    WrongSequence,
    BadOps,
    TooManyDeps,
    NoNodeRoom,
    NoEdgeRoom,
}

impl AddRefusal {
    // The paper's number.
    pub fn number(self) -> u32
        ensures { result ≡ add_refusal_number self }
    {
        match self {
            AddRefusal::Malformed => 2,
            AddRefusal::Known => 3,
            AddRefusal::Unknown(_) => 4,
            AddRefusal::NoActor => 5,
            AddRefusal::WrongSequence => 6,
            AddRefusal::BadOps => 7,
            AddRefusal::TooManyDeps => 8,
            AddRefusal::NoNodeRoom => 9,
            AddRefusal::NoEdgeRoom => 10,
        }
    }
}

// The paper's number.
pub fn number(judged: Result<(), AddRefusal>) -> u32
    ensures { result ≡ judged_number judged }
{
    match judged {
        Ok(()) => 0,
        Err(refusal) => refusal.number(),
    }
}

// How many of the first n nodes are the actor's.
pub fn count_of(nodes: &[u32], n: usize, actor: u64) -> usize
    requires { 6 * n ≤ length nodes.now }
    ensures { result ≡ count_of nodes.now actor n }
{
    let mut count: usize = 0;
    for k in 0..n {
        count += usize::from(nodes[6 * k] as u64 == actor);
    }
    count
}

// What adding the change would come to. Nothing is changed.
pub fn judge(tables: &Tables, change: &Change) -> Result<(), AddRefusal>
    requires { Valid (lists tables.now) }
    ensures { result ≡ tables_judged (lists tables.now) (lent_change change.now) }
{
    if change.hash.len() != 32 {
        return Err(AddRefusal::Malformed);
    }
    if change.deps.len() % 32 != 0 {
        return Err(AddRefusal::Malformed);
    }
    let n = tables.counts[0] as usize;
    let None = hash::find(tables.hashes, n, change.hash) else {
        return Err(AddRefusal::Known);
    };
    if let Some(i) = hash::first_unknown(tables.hashes, n, change.deps) {
        return Err(AddRefusal::Unknown(i));
    }
    if tables.counts[2] as u64 <= change.actor {
        return Err(AddRefusal::NoActor);
    }
    if change.seq != count_of(tables.nodes, n, change.actor) as u64 + 1 {
        return Err(AddRefusal::WrongSequence);
    }
    if 4294967295 < change.max_op {
        return Err(AddRefusal::BadOps);
    }
    if change.max_op < change.ops {
        return Err(AddRefusal::BadOps);
    }
    let d = change.deps.len() / 32;
    if 32 < d {
        return Err(AddRefusal::TooManyDeps);
    }
    if tables.hashes.len() / 32 <= n {
        return Err(AddRefusal::NoNodeRoom);
    }
    if tables.targets.len() < tables.counts[1] as usize + d {
        return Err(AddRefusal::NoEdgeRoom);
    }
    Ok(())
}
