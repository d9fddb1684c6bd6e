// One line of a session that asks: what it does to the tables, and its answer line.
// Tables that are written are taken one by one: two `&mut` of one struct are lent in no call that the borrow checker covers (tried in `graph::store`).
#![tactic(auto)]

ghost use Rattle.std.specs.Prelude.{◌≡◌, List, [], ◌∷◌, ◌%◌, ◌≤◌, length};
ghost use Rattle.paper.specs.Lists.{hashes_of};
ghost use Rattle.paper.specs.Adding.{judged};
ghost use Rattle.paper.specs.Command.{add_word, heads, clock, missing, owner, command_of};
ghost use Rattle.paper.specs.Session.{answer_line, verdict_text, answer};
ghost use Rattle.tables.specs.Lent.{lists};
ghost use Rattle.tables.specs.Tables.{tables};
ghost use Rattle.tables.specs.Valid.{Valid};
ghost use Rattle.judge.specs.Judged.{lent_change};
ghost use Rattle.judge.specs.Hub.{hub};
ghost use Rattle.graph.specs.Place.{added_tables};
ghost use Rattle.reply.specs.Said.{Said};
ghost use Rattle.session_line.specs.Added.{missing_of, Named, judged_text};
ghost use Rattle.session_line.specs.Step.{tables_after, Bench, Stepped};

use command::Line;
use judge::{AddRefusal, Change};
use tables::Tables;

// Why a line has no answer: it does not fit, or it is no line that asks.
#[derive(Clone, Copy, PartialEq, Eq, Debug)]
pub enum NoAnswer {
    Full,
    Bad,
}

// The place of the dependency that is unknown, where that is what adding came to.
fn unknown_of(judged: Result<(), AddRefusal>) -> Option<usize>
    ensures { result ≡ missing_of judged }
{
    match judged {
        Err(AddRefusal::Unknown(i)) => Some(i),
        _ => None,
    }
}

// The answer line of what adding came to.
fn put_judged(
    out: &mut [u8],
    at: usize,
    judged: Result<(), AddRefusal>,
    deps: &[u8],
) -> Option<usize>
    requires { (at ≤ length out.old) × Named judged deps.now }
    ensures { Said (answer_line add_word (judged_text judged deps.now)) at result out.old out.new }
{
    match unknown_of(judged) {
        Some(i) => {
            let p = 32 * i;
            reply::put_unknown(out, at, &deps[p..p + 32])
        }
        None => reply::put_add(out, at, judge::number(judged) as u64),
    }
}

// An `add` line: the change is added where it is accepted, and its number answered.
pub fn add_line(
    hashes: &mut [u8],
    nodes: &mut [u32],
    targets: &mut [u32],
    nexts: &mut [u32],
    clocks: &mut [u32],
    counts: &mut [u32],
    change: &Change,
    out: &mut [u8],
    at: usize,
) -> Option<usize>
    requires valid { Valid (tables hashes.old nodes.old targets.old nexts.old clocks.old counts.old) }
    requires at_in_bounds { at ≤ length out.old }
    ensures said { Said (answer_line add_word (verdict_text (lent_change change.now) (judged (hub (tables hashes.old nodes.old targets.old nexts.old clocks.old counts.old)) (lent_change change.now)))) at result out.old out.new }
    ensures counts_after { tables hashes.new nodes.new targets.new nexts.new clocks.new counts.new ≡ added_tables (tables hashes.old nodes.old targets.old nexts.old clocks.old counts.old) (lent_change change.now) }
{
    let judged = graph::add(hashes, nodes, targets, nexts, clocks, counts, change);
    put_judged(out, at, judged, change.deps)
}

// An `owner` line: the hash of the change that owns the op, or 14.
pub fn owner_line(
    tables: &Tables,
    actor: u64,
    counter: u64,
    out: &mut [u8],
    at: usize,
) -> Option<usize>
    requires valid { Valid (lists tables.now) }
    requires at_in_bounds { at ≤ length out.old }
    ensures { Said (answer (hub (lists tables.now)) (owner actor counter)) at result out.old out.new }
{
    let n = tables.counts[0] as usize;
    match owner::owner_at(tables.nodes, n, actor, counter) {
        Some(k) => {
            let p = 32 * k;
            reply::put_owner(out, at, &tables.hashes[p..p + 32])
        }
        None => reply::put_no_owner(out, at),
    }
}

// A `heads` line: the heads, ascending. At most 256 changes are lent, so the list has room for all of them.
pub fn heads_line(tables: &Tables, out: &mut [u8], at: usize) -> Option<usize>
    requires valid { Valid (lists tables.now) × Bench (hub (lists tables.now)) }
    requires at_in_bounds { at ≤ length out.old }
    ensures { Said (answer (hub (lists tables.now)) heads) at result out.old out.new }
{
    let mut list = [0u8; 8192];
    let n = heads::heads(tables, &mut list).unwrap_or(0);
    reply::put_heads(out, at, &list, n / 32)
}

// A `clock` line: the clock of the listed hashes, an entry for each actor.
pub fn clock_line(tables: &Tables, list: &[u8], out: &mut [u8], at: usize) -> Option<usize>
    requires valid { Valid (lists tables.now) × Bench (hub (lists tables.now)) }
    requires at_in_bounds { at ≤ length out.old }
    ensures { Said (answer (hub (lists tables.now)) (clock (hashes_of list.now))) at result out.old out.new }
{
    let a = tables.counts[2] as usize;
    let mut clock = [0u32; 16];
    list_clock::clock_into(tables, list, &mut clock[0..a]);
    reply::put_clock(out, at, &clock[0..a])
}

// A `missing` line: what is missing to who has the listed hashes. With none listed that is the table of hashes itself.
pub fn missing_line(tables: &Tables, list: &[u8], out: &mut [u8], at: usize) -> Option<usize>
    requires valid { Valid (lists tables.now) × Bench (hub (lists tables.now)) }
    requires list_len { (length list.now % 32 ≡ 0) × (at ≤ length out.old) }
    ensures { Said (answer (hub (lists tables.now)) (missing (hashes_of list.now))) at result out.old out.new }
{
    let mut answer = [0u8; 8192];
    let n = missing::get_hashes(tables, list, &mut answer).unwrap_or(0);
    let shown = missing::missing_shown(tables.hashes, &answer, list, n);
    reply::put_missing(out, at, shown, n / 32)
}

// One line that asks: what it does to the tables, and its answer. A line that does not ask changes nothing.
pub fn step(
    line: &[u8],
    hashes: &mut [u8],
    nodes: &mut [u32],
    targets: &mut [u32],
    nexts: &mut [u32],
    clocks: &mut [u32],
    counts: &mut [u32],
    out: &mut [u8],
    at: usize,
) -> Result<usize, NoAnswer>
    requires valid { Valid (tables hashes.old nodes.old targets.old nexts.old clocks.old counts.old) }
    requires bench { Bench (hub (tables hashes.old nodes.old targets.old nexts.old clocks.old counts.old)) }
    requires line_len_bound { (length line.now ≤ 2400) × (at ≤ length out.old) }
    ensures stepped { Stepped (tables hashes.old nodes.old targets.old nexts.old clocks.old counts.old) (command_of line.now) at result out.old out.new }
    ensures counts_after { tables hashes.new nodes.new targets.new nexts.new clocks.new counts.new ≡ tables_after (tables hashes.old nodes.old targets.old nexts.old clocks.old counts.old) (command_of line.now) }
{
    let mut hash = [0u8; 32];
    let mut list = [0u8; 1152];
    let asked = command::read(line, &mut hash, &mut list).ok_or(NoAnswer::Bad)?;
    let tables = Tables {
        hashes,
        nodes,
        targets,
        nexts,
        clocks,
        counts,
    };
    match asked {
        Line::Heads => heads_line(&tables, out, at).ok_or(NoAnswer::Full),
        Line::Clock(n) => { clock_line(&tables, &list[0..32 * n], out, at).ok_or(NoAnswer::Full) }
        Line::Missing(n) => {
            missing_line(&tables, &list[0..32 * n], out, at).ok_or(NoAnswer::Full)
        }
        Line::Owner(actor, counter) => {
            owner_line(&tables, actor, counter, out, at).ok_or(NoAnswer::Full)
        }
        Line::Add {
            actor,
            seq,
            max_op,
            ops,
            deps,
        } => {
            let change = Change {
                hash: &hash,
                actor,
                seq,
                max_op,
                ops,
                deps: &list[0..32 * deps],
            };
            add_line(
                hashes, nodes, targets, nexts, clocks, counts, &change, out, at,
            )
            .ok_or(NoAnswer::Full)
        }
    }
}
