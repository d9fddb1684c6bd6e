// The text session: a change list in, its answers out.
// Tables that are written are taken one by one: two `&mut` of one struct are lent in no call that the borrow checker covers (tried in `graph::store`).
#![tactic(auto)]

ghost use Rattle.std.specs.Prelude.{◌≡◌, ◌++◌, ◌≤◌, length};
ghost use Rattle.paper.specs.Session.{first, second, asking, bench, line_step, answers, session, number_in, length_in, buffer_in};
ghost use Rattle.text.specs.Parts.{part, parts_from};
ghost use Rattle.tables.specs.Tables.{tables, actors};
ghost use Rattle.reply.specs.Said.{Said};
ghost use Rattle.lent_place.specs.Places.{told_in};
ghost use Rattle.session.specs.Begin.{Begun, Inside};
ghost use Rattle.session.specs.Ask.{Fresh};

use session_line::NoAnswer;
use text::{Cursor, Next};

// What the first two lines say: how many actors there are, and where the third line starts.
#[derive(Clone, Copy, PartialEq, Eq, Debug)]
pub struct Opening {
    pub actors: u64,
    pub next: Cursor,
}

// The number of a line that is bad.
#[derive(Clone, Copy, PartialEq, Eq, Debug)]
pub struct BadLine {
    pub number: u64,
}

// The second line, from `start` to `end`; what follows it starts at the cursor.
fn read_second(input: &[u8], start: usize, end: usize, next: Cursor) -> Result<Opening, BadLine>
    requires { Inside input.now start end next × (3 ≤ next.at) }
    ensures { Begun ((line_step second 2 (part input.now start end)).said ++ answers (line_step second 2 (part input.now start end)).phase 3 (parts_from 10 input.now next.at)) input.now result }
{
    match command::read_actors(&input[start..end]) {
        Some(actors) => Ok(Opening { actors, next }),
        None => Err(BadLine { number: 2 }),
    }
}

// The first line, from `start` to `end`, and then the second.
fn read_first(input: &[u8], start: usize, end: usize, next: Cursor) -> Result<Opening, BadLine>
    requires { Inside input.now start end next }
    ensures { Begun ((line_step first 1 (part input.now start end)).said ++ answers (line_step first 1 (part input.now start end)).phase 2 (parts_from 10 input.now next.at)) input.now result }
{
    if !command::is_header(&input[start..end]) {
        return Err(BadLine { number: 1 });
    }
    match next.line(input) {
        Next::Whole { start, end, next } => read_second(input, start, end, next),
        Next::Unended | Next::TooLong | Next::End => Err(BadLine { number: 2 }),
    }
}

// The first two lines.
pub fn read_begin(input: &[u8]) -> Result<Opening, BadLine>
    ensures { Begun (session input.now) input.now result }
{
    let c = Cursor { at: 0 };
    match c.line(input) {
        Next::Whole { start, end, next } => read_first(input, start, end, next),
        Next::Unended | Next::TooLong | Next::End => Err(BadLine { number: 1 }),
    }
}

// The lines that ask, from the third on, over tables that hold an empty graph. Each answer stands after the one before it; a bad line's is the last.
fn lines(
    input: &[u8],
    c: Cursor,
    hashes: &mut [u8],
    nodes: &mut [u32],
    targets: &mut [u32],
    nexts: &mut [u32],
    clocks: &mut [u32],
    counts: &mut [u32],
    answer: &mut [u8],
) -> Option<usize>
    requires fresh { Fresh (tables hashes.old nodes.old targets.old nexts.old clocks.old counts.old) }
    requires le_at { (3 ≤ c.at) × (c.at ≤ length input.now) }
    ensures { Said (answers (asking (bench (actors (tables hashes.old nodes.old targets.old nexts.old clocks.old counts.old)))) 3 (parts_from 10 input.now c.at)) 0 result answer.old answer.new }
{
    let mut cur = c;
    let mut at: usize = 0;
    let mut n: u64 = 3;
    // A `loop`: each line tells where the next one starts, and the answer where the next one goes.
    loop {
        match cur.line(input) {
            Next::End => return Some(at),
            Next::Unended | Next::TooLong => return reply::put_bad(answer, at, n),
            Next::Whole { start, end, next } => {
                match session_line::step(
                    &input[start..end],
                    hashes,
                    nodes,
                    targets,
                    nexts,
                    clocks,
                    counts,
                    answer,
                    at,
                ) {
                    Err(NoAnswer::Bad) => return reply::put_bad(answer, at, n),
                    Err(NoAnswer::Full) => return None,
                    Ok(p) => {
                        at = p;
                        cur = next;
                        n += 1;
                    }
                }
            }
        }
    }
}

// The lines that ask, of an empty graph with n actors.
fn ask(input: &[u8], c: Cursor, n: u64, answer: &mut [u8]) -> Option<usize>
    requires le_n { (1 ≤ n) × (n ≤ 16) }
    requires le_at { (3 ≤ c.at) × (c.at ≤ length input.now) }
    ensures { Said (answers (asking (bench n)) 3 (parts_from 10 input.now c.at)) 0 result answer.old answer.new }
{
    let mut hashes = [0u8; 8192];
    let mut nodes = [0u32; 1536];
    let mut targets = [0u32; 1024];
    let mut nexts = [0u32; 1024];
    let mut clocks = [0u32; 4096];
    let mut counts = [0u32; 3];
    counts[2] = n as u32;
    lines(
        input,
        c,
        &mut hashes,
        &mut nodes,
        &mut targets,
        &mut nexts,
        &mut clocks,
        &mut counts,
        answer,
    )
}

// All lines: the answer into the buffer, and its length or that it does not fit.
pub fn run(input: &[u8], answer: &mut [u8]) -> Option<usize>
    ensures { Said (session input.now) 0 result answer.old answer.new }
{
    match read_begin(input) {
        Ok(opening) => ask(input, opening.next, opening.actors, answer),
        Err(bad) => reply::put_bad(answer, 0, bad.number),
    }
}

// The session: the answer to a change list. The number is 0, or 15 where the buffer is shorter than the answer; then every byte of it is 0. The length is told
// with either number; with 15 it is 0.
#[unsafe(no_mangle)]
pub extern "C" fn cg_session(input: &[u8], answer: &mut [u8], told: &mut [u64]) -> u32
    ensures value { result ≡ number_in (session input.now) (length answer.old) }
    ensures told_after { told.new ≡ told_in (length_in (session input.now) (length answer.old)) told.old }
    ensures answer_after { answer.new ≡ buffer_in (session input.now) answer.old }
{
    let put = run(input, answer);
    lent_place::tell(told, put.unwrap_or(0) as u64);
    if put.is_some() {
        return 0;
    }
    print::zero_all(answer);
    15
}
