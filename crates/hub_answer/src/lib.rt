// The answers of public questions: the paper's number of an answer, and how much it takes, told to the caller in a lent place.
#![tactic(auto)]

ghost use Rattle.std.specs.Prelude.{◌≡◌, ◌↔◌, IsSome, IfSome};
ghost use Rattle.tables.specs.Lent.{lists};
ghost use Rattle.tables.specs.Valid.{Valid};
ghost use Rattle.edges.specs.Edges.{lent, taken_targets, taken_nexts, blank};
ghost use Rattle.hub_answer.specs.Asks.{reply_number, told_by, of_listed, of_yes_no, of_bool, gives};

use answer_buffer::Refusal;
use edges::Edge;
use tables::Tables;

// The lent tables as the cores take them, where they are valid. The records were unpacked into the targets and the nexts.
pub fn valid_tables<'a>(
    hashes: &'a [u8],
    nodes: &'a [u32],
    edges: &[Edge],
    targets: &'a [u32],
    nexts: &'a [u32],
    clocks: &'a [u32],
    counts: &'a [u32],
) -> Option<Tables<'a>>
    requires { (targets.now ≡ taken_targets edges.now blank blank) × (nexts.now ≡ taken_nexts edges.now blank blank) }
    ensures checked { IsSome result ↔ Valid (lent hashes.now nodes.now edges.now clocks.now counts.now) }
    ensures same { IfSome result (λ tables. lists tables ≡ lent hashes.now nodes.now edges.now clocks.now counts.now) }
{
    let (targets, nexts) = edges::unpacked(edges, targets, nexts)?;
    let tables = Tables {
        hashes,
        nodes,
        targets,
        nexts,
        clocks,
        counts,
    };
    cache::valid(&tables).then_some(tables)
}

// The answer of a question for a number, which is never refused.
pub fn count(n: u64, told: &mut [u64]) -> u32
    ensures value { result ≡ reply_number (gives n) }
    ensures told_after { told.new ≡ told_by (gives n) told.old }
{
    lent_place::tell(told, n);
    0
}

// The answer of a question for yes or no that is never refused.
pub fn yes(b: bool, told: &mut [u64]) -> u32
    ensures value { result ≡ reply_number (of_bool b) }
    ensures told_after { told.new ≡ told_by (of_bool b) told.old }
{
    count(u64::from(b), told)
}

// The answer of a question with a buffer, or for a node's number.
pub fn listed(answer: Result<usize, Refusal>, told: &mut [u64]) -> u32
    ensures value { result ≡ reply_number (of_listed answer) }
    ensures told_after { told.new ≡ told_by (of_listed answer) told.old }
{
    match answer {
        Ok(n) => count(n as u64, told),
        Err(refusal) => refusal.number(),
    }
}

// The answer of a question for yes or no.
pub fn yes_no(answer: Result<bool, Refusal>, told: &mut [u64]) -> u32
    ensures value { result ≡ reply_number (of_yes_no answer) }
    ensures told_after { told.new ≡ told_by (of_yes_no answer) told.old }
{
    match answer {
        Ok(b) => yes(b, told),
        Err(refusal) => refusal.number(),
    }
}
