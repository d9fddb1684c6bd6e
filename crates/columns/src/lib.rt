// Decoded load columns: whether they agree, and what loading them comes to. Nothing is kept between the checks: each one scans the
// columns, however long they are and whatever 64-bit numbers they hold.
#![tactic(auto)]

ghost use Rattle.std.specs.Prelude.{◌≡◌, ◌+◌, ◌*◌, ◌/◌, ◌≤◌, ◌<◌, eqb, length, get_or, if◌then◌else◌};
ghost use Rattle.paper.specs.Lists.{mem, tally, some_below, all_below, all_in};
ghost use Rattle.paper.specs.Loading.{agree, judged_load};
ghost use Rattle.columns.specs.Columns.{listed, loading_outcome, loading_number, OneEach, HasValues, total, dep_right, is_known, column_head_is, stated_right, head_told, column_heads_right, lengths_test, actors_test, ops_test, enough_test, deps_test, runs_test, new_test};

// Why columns are not loaded.
#[derive(Clone, Copy, PartialEq, Eq, Debug)]
pub enum LoadRefusal {
    Malformed,
    NoActorRoom,
    Disagree,
    NoNodeRoom,
    NoEdgeRoom,
}

// The columns as they are lent: the changes' hashes, 32 bytes each, their actors, sequences, max ops, op counts and how many
// dependencies each has; the values, which are the dependencies of all changes as node numbers, one after the other; the stated heads;
// and how many actors there are.
#[derive(Clone, Copy)]
pub struct Columns<'a> {
    pub ids: &'a [u8],
    pub actors: &'a [u64],
    pub seqs: &'a [u64],
    pub maxes: &'a [u64],
    pub ops: &'a [u64],
    pub deps: &'a [u64],
    pub values: &'a [u64],
    pub heads: &'a [u8],
    pub count: u64,
}

// The paper's number.
pub fn number(loaded: Result<(), LoadRefusal>) -> u32
    ensures { result ≡ loading_number loaded }
{
    match loaded {
        Ok(()) => 0,
        Err(LoadRefusal::Malformed) => 2,
        Err(LoadRefusal::NoActorRoom) => 12,
        Err(LoadRefusal::Disagree) => 18,
        Err(LoadRefusal::NoNodeRoom) => 9,
        Err(LoadRefusal::NoEdgeRoom) => 10,
    }
}

// Whether the hash is one of the table's first n.
fn known(hashes: &[u8], n: usize, hash: &[u8]) -> bool
    requires { (32 * n ≤ length hashes.now) × (length hash.now ≡ 32) }
    ensures { result ≡ is_known hashes.now n hash.now }
{
    for j in 0..n {
        if hash::same_at(hashes, j, hash) {
            return true;
        }
    }
    false
}

// Whether node k is one of the dependencies.
fn wanted(values: &[u64], k: usize) -> bool
    ensures { result ≡ mem k values.now }
{
    values.contains(&(k as u64))
}

impl Columns<'_> {
    // How many changes are listed.
    fn changes(&self) -> usize
        ensures { result ≡ length self.now.ids.now / 32 }
    {
        self.ids.len() / 32
    }

    // Whether the columns have one entry for each change.
    fn lengths_equal(&self) -> bool
        ensures { result ≡ lengths_test (listed self.now) }
    {
        let n = self.changes();
        self.actors.len() == n
            && self.seqs.len() == n
            && self.maxes.len() == n
            && self.ops.len() == n
            && self.deps.len() == n
    }

    // Whether the actors are below the count.
    fn actors_low(&self) -> bool
        requires { OneEach (listed self.now) }
        ensures { result ≡ actors_test (listed self.now) }
    {
        self.actors.iter().all(|actor| *actor < self.count)
    }

    // Whether rule 7 holds of all changes.
    fn ops_right(&self) -> bool
        requires { OneEach (listed self.now) }
        ensures { result ≡ ops_test (listed self.now) }
    {
        self.maxes
            .iter()
            .zip(self.ops)
            .all(|(max, ops)| *max <= u32::MAX as u64 && ops <= max)
    }

    // How many dependencies the changes have, where none has more than 32 and there are values for all of them.
    fn edges(&self) -> Option<usize>
        requires { OneEach (listed self.now) }
        ensures { result ≡ (if enough_test (listed self.now) then Some (total self.now.deps.now (length self.now.ids.now / 32)) else None) }
    {
        let mut at: usize = 0;
        for d in self.deps {
            if 32 < *d {
                return None;
            }
            if self.values.len() - at < *d as usize {
                return None;
            }
            at += *d as usize;
        }
        Some(at)
    }

    // Whether each of the dependencies is below node k, and has no larger max op.
    fn node_right(&self, k: usize, deps: &[u64]) -> bool
        requires { k < length self.now.maxes.now }
        ensures { result ≡ all_in (dep_right self.now.maxes.now k) deps.now }
    {
        for j in deps {
            let j = *j as usize;
            if k <= j {
                return false;
            }
            if self.maxes[k] < self.maxes[j] {
                return false;
            }
        }
        true
    }

    // The same of all changes.
    fn deps_right(&self) -> bool
        requires { OneEach (listed self.now) × HasValues (listed self.now) }
        ensures { result ≡ deps_test (listed self.now) }
    {
        let mut at: usize = 0;
        for k in 0..self.changes() {
            let d = self.deps[k] as usize;
            if !self.node_right(k, &self.values[at..at + d]) {
                return false;
            }
            at += d;
        }
        true
    }

    // How many of the first k changes are the actor's.
    fn count_before(&self, k: usize, actor: u64) -> usize
        requires { k ≤ length self.now.actors.now }
        ensures { result ≡ tally (λ j. eqb (get_or self.now.actors.now j 0) actor) k }
    {
        self.actors[..k].iter().filter(|a| **a == actor).count()
    }

    // Whether each actor's sequences run 1, 2, 3.
    fn sequences_run(&self) -> bool
        requires { OneEach (listed self.now) }
        ensures { result ≡ runs_test (listed self.now) }
    {
        for k in 0..self.changes() {
            let c = self.count_before(k, self.actors[k]);
            if self.seqs[k] != c as u64 + 1 {
                return false;
            }
        }
        true
    }

    // Whether no hash stands twice.
    fn distinct(&self) -> bool
        ensures { result ≡ new_test (listed self.now) }
    {
        for k in 0..self.changes() {
            let p = 32 * k;
            if known(self.ids, k, &self.ids[p..p + 32]) {
                return false;
            }
        }
        true
    }

    // Whether the hash is that of a node that no change depends on.
    fn is_head(&self, hash: &[u8], used: &[u64]) -> bool
        requires { length hash.now ≡ 32 }
        ensures { result ≡ some_below (column_head_is self.now.ids.now used.now hash.now) (length self.now.ids.now / 32) }
    {
        for k in 0..self.changes() {
            if hash::same_at(self.ids, k, hash) && !wanted(used, k) {
                return true;
            }
        }
        false
    }

    // Whether every stated head is one.
    fn stated_right(&self, used: &[u64]) -> bool
        ensures { result ≡ all_below (stated_right self.now.ids.now (length self.now.ids.now / 32) used.now self.now.heads.now) (length self.now.heads.now / 32) }
    {
        for i in 0..self.heads.len() / 32 {
            let p = 32 * i;
            if !self.is_head(&self.heads[p..p + 32], used) {
                return false;
            }
        }
        true
    }

    // Whether node k is a dependency, or its hash is stated.
    fn head_told(&self, k: usize, used: &[u64]) -> bool
        requires { 32 * k + 32 ≤ length self.now.ids.now }
        ensures { result ≡ head_told self.now.ids.now used.now self.now.heads.now k }
    {
        let p = 32 * k;
        wanted(used, k) || known(self.heads, self.heads.len() / 32, &self.ids[p..p + 32])
    }

    // Whether every head is stated.
    fn heads_told(&self, used: &[u64]) -> bool
        ensures { result ≡ all_below (head_told self.now.ids.now used.now self.now.heads.now) (length self.now.ids.now / 32) }
    {
        for k in 0..self.changes() {
            if !self.head_told(k, used) {
                return false;
            }
        }
        true
    }

    // Whether the stated heads are those of the changes, order and repeats ignored.
    fn heads_right(&self, used: &[u64]) -> bool
        ensures { result ≡ column_heads_right self.now.ids.now (length self.now.ids.now / 32) used.now self.now.heads.now }
    {
        self.stated_right(used) && self.heads_told(used)
    }

    // Where the columns agree, how many dependencies the changes have.
    fn agree(&self) -> Option<usize>
        ensures { result ≡ (if agree (listed self.now) then Some (total self.now.deps.now (length self.now.ids.now / 32)) else None) }
    {
        if !self.lengths_equal() {
            return None;
        }
        if !self.actors_low() || !self.ops_right() {
            return None;
        }
        let e = self.edges()?;
        if self.deps_right()
            && self.sequences_run()
            && self.distinct()
            && self.heads_right(&self.values[..e])
        {
            Some(e)
        } else {
            None
        }
    }

    // What loading the columns comes to, where there is room for so many changes, edges and actors.
    pub fn judge(&self, nodes: usize, edges: usize, rows: usize) -> Result<(), LoadRefusal>
        ensures { loading_outcome result ≡ judged_load nodes edges rows (listed self.now) }
    {
        if self.ids.len() % 32 != 0 || self.heads.len() % 32 != 0 {
            return Err(LoadRefusal::Malformed);
        }
        if (rows as u64) < self.count {
            return Err(LoadRefusal::NoActorRoom);
        }
        let e = self.agree().ok_or(LoadRefusal::Disagree)?;
        if nodes < self.changes() {
            return Err(LoadRefusal::NoNodeRoom);
        }
        if edges < e {
            return Err(LoadRefusal::NoEdgeRoom);
        }
        Ok(())
    }
}
