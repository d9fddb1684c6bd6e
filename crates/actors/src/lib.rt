// Actors of a graph: opening an empty graph for a number of them, putting one in at a place, taking one away.
// Tables that are written are taken one by one: two `&mut` of one struct are lent in no call that the borrow checker covers (tried in `graph::store`).
#![tactic(auto)]

ghost use Rattle.std.specs.Prelude.{◌≡◌, ℕ, ◌+◌, ◌*◌, ◌≤◌, ◌<◌, List, length};
ghost use Rattle.clock.specs.Clock.{raised};
ghost use Rattle.tables.specs.Tables.{tables, actor_at};
ghost use Rattle.tables.specs.Valid.{Lengths, Valid};
ghost use Rattle.actors.specs.Actors.{actor_number, opening, inserting, removing, lower, renumbered, rows_by, RowBy, FnTakesAtMut, FnReturnsAtMut, actor_inserted, actor_removed, opened, if_actors_done};

// Why opening, putting in or taking away is refused.
#[derive(Clone, Copy, PartialEq, Eq, Debug)]
pub enum ActorRefusal {
    NoActor,
    HasChanges,
    NoRoom,
}

// The paper's number.
pub fn number(answer: Result<(), ActorRefusal>) -> u32
    ensures { result ≡ actor_number answer }
{
    match answer {
        Ok(()) => 0,
        Err(ActorRefusal::NoActor) => 5,
        Err(ActorRefusal::HasChanges) => 11,
        Err(ActorRefusal::NoRoom) => 12,
    }
}

// Opens an empty graph for so many actors. Only table lengths matter, and only the counts are changed; on a refusal nothing is.
#[tactic(auto, unfolding(crate::specs::Actors::opening))]
pub fn open_empty(
    hashes: &[u8],
    nodes: &[u32],
    targets: &[u32],
    nexts: &[u32],
    clocks: &[u32],
    counts: &mut [u32],
    actors: u64,
) -> Result<(), ActorRefusal>
    requires { Lengths (tables hashes.now nodes.now targets.now nexts.now clocks.now counts.old) }
    ensures value { result ≡ opening (tables hashes.now nodes.now targets.now nexts.now clocks.now counts.old) actors }
    ensures counts_after { tables hashes.now nodes.now targets.now nexts.now clocks.now counts.new ≡ if_actors_done result (opened (tables hashes.now nodes.now targets.now nexts.now clocks.now counts.old) actors) (tables hashes.now nodes.now targets.now nexts.now clocks.now counts.old) }
{
    if (tables::actor_room(hashes, clocks) as u64) < actors {
        return Err(ActorRefusal::NoRoom);
    }
    counts.copy_from_slice(&[0, 0, actors as u32]);
    Ok(())
}

// An actor's number after one came in at place p.
fn raised(a: u32, p: usize) -> u32
    requires { a < 64 }
    ensures { result ≡ raised p a }
{
    if (a as usize) < p { a } else { a + 1 }
}

// An actor's number after the one at place p went.
fn lowered(a: u32, p: usize) -> u32
    ensures { result ≡ lower p a }
{
    if a as usize <= p { a } else { a - 1 }
}

// Renumbers the actors of the first n nodes.
fn renumber<F: Fn(u32) -> u32>(nodes: &mut [u32], n: usize, f: F)
    requires n_in_bounds { 6 * n ≤ length nodes.old }
    requires callable { (k : ℕ) → k < n → F.pre f (actor_at nodes.old k) }
    ensures { (g : ℕ → ℕ) → ((a b : ℕ) → F.post f a b → b ≡ g a) → nodes.new ≡ renumbered g n nodes.old }
{
    for k in 0..n {
        nodes[6 * k] = f(nodes[6 * k]);
    }
}

// Changes the first n rows of w entries, each as a clock.
fn change_rows<F: Fn(&mut [u32])>(clocks: &mut [u32], n: usize, w: usize, change: F)
    requires n_in_bounds { n * w ≤ length clocks.old }
    requires callable { (row : List ℕ) → length row ≡ w → FnTakesAtMut F.Fn change row }
    ensures { (s : (ℕ → ℕ) → ℕ → ℕ) → ((row left : List ℕ) → length row ≡ w → FnReturnsAtMut F.Fn change row tt left → RowBy s w row left) → clocks.new ≡ rows_by s w n clocks.old }
{
    for k in 0..n {
        change(&mut clocks[k * w..k * w + w]);
    }
}

// Puts an actor in at the place: numbers from there on move up by one, in changes and clocks. On a refusal nothing is changed.
#[tactic(auto, unfolding(crate::specs::Actors::inserting))]
pub fn insert_actor(
    hashes: &[u8],
    nodes: &mut [u32],
    targets: &[u32],
    nexts: &[u32],
    clocks: &mut [u32],
    counts: &mut [u32],
    place: u64,
) -> Result<(), ActorRefusal>
    requires { Valid (tables hashes.now nodes.old targets.now nexts.now clocks.old counts.old) }
    ensures value { result ≡ inserting (tables hashes.now nodes.old targets.now nexts.now clocks.old counts.old) place }
    ensures counts_after { tables hashes.now nodes.new targets.now nexts.now clocks.new counts.new ≡ if_actors_done result (actor_inserted (tables hashes.now nodes.old targets.now nexts.now clocks.old counts.old) place) (tables hashes.now nodes.old targets.now nexts.now clocks.old counts.old) }
{
    let n = counts[0] as usize;
    let a = counts[2];
    let w = tables::actor_room(hashes, clocks);
    if (a as u64) < place || w <= a as usize {
        return Err(ActorRefusal::NoRoom);
    }
    let p = place as usize;
    renumber(nodes, n, |actor| raised(actor, p));
    change_rows(
        clocks,
        n,
        w,
        |row| clock::rewrite_with_new_actor(row, w - 1, p),
    );
    counts[2] = a + 1;
    Ok(())
}

// Takes the actor at the place away, if it has no changes: numbers above move down by one, in changes and clocks. On a refusal nothing is changed.
#[tactic(auto, unfolding(crate::specs::Actors::removing))]
pub fn remove_actor(
    hashes: &[u8],
    nodes: &mut [u32],
    targets: &[u32],
    nexts: &[u32],
    clocks: &mut [u32],
    counts: &mut [u32],
    place: u64,
) -> Result<(), ActorRefusal>
    requires { Valid (tables hashes.now nodes.old targets.now nexts.now clocks.old counts.old) }
    ensures value { result ≡ removing (tables hashes.now nodes.old targets.now nexts.now clocks.old counts.old) place }
    ensures counts_after { tables hashes.now nodes.new targets.now nexts.now clocks.new counts.new ≡ if_actors_done result (actor_removed (tables hashes.now nodes.old targets.now nexts.now clocks.old counts.old) place) (tables hashes.now nodes.old targets.now nexts.now clocks.old counts.old) }
{
    let n = counts[0] as usize;
    let a = counts[2];
    let w = tables::actor_room(hashes, clocks);
    if a as u64 <= place {
        return Err(ActorRefusal::NoActor);
    }
    if judge::count_of(nodes, n, place) != 0 {
        return Err(ActorRefusal::HasChanges);
    }
    let p = place as usize;
    renumber(nodes, n, |actor| lowered(actor, p));
    change_rows(clocks, n, w, |row| clock::remove_actor(row, w, p));
    counts[2] = a - 1;
    Ok(())
}
