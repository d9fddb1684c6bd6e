// Replays recorded runs of a batch and a queue: standard input has the commands, one a line, and the answers go to standard output.
// A hash is H and one digit, which stands for 32 equal bytes; keys and sequences are one digit. Tables of eight records.
#![tactic(auto)]

ghost use Rattle.std.specs.Prelude.{◌≤◌, length};

use std::io::{self, Read};
use waiting::QueueRefusal;

// The tables of a batch or a queue.
#[derive(Drop)]
struct Store {
    hashes: [u8; 256],
    numbers: [u64; 40],
    deps: [u8; 8192],
    count: [u32; 1],
}

fn empty() -> Store {
    Store {
        hashes: [0; 256],
        numbers: [0; 40],
        deps: [0; 8192],
        count: [0],
    }
}

// The byte at a place, or 0 past the end.
fn byte_at(line: &[u8], i: usize) -> u8 {
    if i < line.len() { line[i] } else { 0 }
}

// The number whose digit stands at a place.
fn number_at(line: &[u8], i: usize) -> u64 {
    u64::from(byte_at(line, i) % 16)
}

// The byte of the hash whose digit stands at a place.
fn hash_at(line: &[u8], i: usize) -> u8 {
    17 * (byte_at(line, i) % 16)
}

// Writes a list of hashes.
fn show(rt: &impl Print, hashes: &[u8], n: usize) -> io::Result<()>
    requires { n ≤ 256 }
{
    if n == 0 {
        print!(rt; "-")?;
    }
    for i in 0..n {
        if 0 < i {
            print!(rt; ",")?;
        }
        print!(rt; "H{}", byte_at(hashes, 32 * i) % 16)?;
    }
    println!(rt)
}

// How many dependencies a push lists, at most three.
fn listed(line: &[u8]) -> usize
    ensures { result ≤ 3 }
{
    if byte_at(line, 13) != b'H' {
        return 0;
    }
    if byte_at(line, 15) != b',' {
        return 1;
    }
    if byte_at(line, 18) != b',' {
        return 2;
    }
    3
}

fn say_pushed(rt: &impl Print, answer: Result<(), QueueRefusal>) -> io::Result<()> {
    match answer {
        Ok(()) => println!(rt; "0"),
        Err(QueueRefusal::AlreadyKnown) => println!(rt; "3"),
        Err(QueueRefusal::AlreadyWaiting) => println!(rt; "16"),
        Err(_) => println!(rt; "refused"),
    }
}

fn say_done(rt: &impl Print, answer: Result<(), QueueRefusal>) -> io::Result<()> {
    match answer {
        Ok(()) => println!(rt; "0"),
        Err(_) => println!(rt; "refused"),
    }
}

fn say_asked(rt: &impl Print, answer: Result<bool, QueueRefusal>) -> io::Result<()> {
    match answer {
        Ok(true) => println!(rt; "yes"),
        Ok(false) => println!(rt; "no"),
        Err(_) => println!(rt; "refused"),
    }
}

// bpush HASH KEY SEQ DEPS
fn push_line(rt: &impl Print, line: &[u8], s: &mut Store) -> io::Result<()> {
    let hash = [hash_at(line, 7); 32];
    let mut needs = [0u8; 96];
    needs[..32].fill(hash_at(line, 14));
    needs[32..64].fill(hash_at(line, 17));
    needs[64..].fill(hash_at(line, 20));
    let m = 32 * listed(line);
    let pushed = batch::push(
        &mut s.hashes,
        &mut s.numbers,
        &mut s.deps,
        &mut s.count,
        &hash,
        number_at(line, 9),
        number_at(line, 11),
        0,
        0,
        &needs[..m],
    );
    say_pushed(rt, pushed)
}

// qlist, blist
fn list_line(rt: &impl Print, s: &Store) -> io::Result<()> {
    let mut hashes = [0u8; 256];
    let mut numbers = [0u64; 40];
    let mut deps = [0u8; 8192];
    let answer = queue::iter(
        &s.hashes,
        &s.numbers,
        &s.deps,
        &s.count,
        &mut hashes,
        &mut numbers,
        &mut deps,
    );
    match answer {
        Ok(m) if m <= 256 => show(rt, &hashes, m),
        _ => Ok(()),
    }
}

// qpop
fn pop_line(rt: &impl Print, graph: &[u8], known: usize, s: &mut Store) -> io::Result<()> {
    let mut hashes = [0u8; 256];
    let mut numbers = [0u64; 40];
    let mut deps = [0u8; 8192];
    let answer = release::release(
        graph,
        known,
        &mut s.hashes,
        &mut s.numbers,
        &mut s.deps,
        &mut s.count,
        &mut hashes,
        &mut numbers,
        &mut deps,
    );
    match answer {
        Ok(m) if m <= 256 => show(rt, &hashes, m),
        _ => Ok(()),
    }
}

// bgive
fn give_line(rt: &impl Print, s: &mut Store, b: &mut Store) -> io::Result<()> {
    let handed = queue::hand_over(
        &mut s.hashes,
        &mut s.numbers,
        &mut s.deps,
        &mut s.count,
        &b.hashes,
        &b.numbers,
        &b.deps,
        &mut b.count,
    );
    say_done(rt, handed)
}

// qdrop KEY SEQ
fn drop_line(rt: &impl Print, line: &[u8], s: &mut Store) -> io::Result<()> {
    let dropped = branch::remove_actor_branch_from(
        &mut s.hashes,
        &mut s.numbers,
        &mut s.deps,
        &mut s.count,
        number_at(line, 6),
        number_at(line, 8),
    );
    say_done(rt, dropped)
}

// bnew, qnew
fn new_line(rt: &impl Print, s: &mut Store) -> io::Result<()> {
    let opened = waiting::open_empty(&s.hashes, &s.numbers, &s.deps, &mut s.count);
    say_done(rt, opened)
}

// qhas HASH, qhasseq KEY SEQ, qempty
fn ask_line(rt: &impl Print, line: &[u8], s: &Store) -> io::Result<()> {
    if byte_at(line, 1) == b'e' {
        return say_asked(
            rt,
            queue::is_empty(&s.hashes, &s.numbers, &s.deps, &s.count),
        );
    }
    if byte_at(line, 4) == b's' {
        let key = number_at(line, 8);
        let seq = number_at(line, 10);
        return say_asked(
            rt,
            queue::has_actor_seq(&s.hashes, &s.numbers, &s.deps, &s.count, key, seq),
        );
    }
    let hash = [hash_at(line, 6); 32];
    say_asked(
        rt,
        queue::has_hash(&s.hashes, &s.numbers, &s.deps, &s.count, &hash),
    )
}

// The commands on the batch: bnew, bpush, blist, bgive.
fn batch_line(rt: &impl Print, line: &[u8], s: &mut Store, b: &mut Store) -> io::Result<()> {
    match byte_at(line, 1) {
        b'g' => give_line(rt, s, b),
        b'n' => new_line(rt, b),
        b'p' => push_line(rt, line, b),
        _ => list_line(rt, b),
    }
}

// The commands on the queue alone.
fn queue_line(
    rt: &impl Print,
    line: &[u8],
    graph: &[u8],
    known: usize,
    s: &mut Store,
) -> io::Result<()> {
    match byte_at(line, 1) {
        b'n' => new_line(rt, s),
        b'p' => pop_line(rt, graph, known, s),
        b'd' => drop_line(rt, line, s),
        b'l' => list_line(rt, s),
        _ => ask_line(rt, line, s),
    }
}

// new, add HASH ..: a hash that is added is known, at most eight. Answers how many the graph knows then.
fn know(graph: &mut [u8; 256], known: usize, line: &[u8]) -> usize {
    match byte_at(line, 0) {
        b'n' => 0,
        b'a' if known < 8 => {
            graph[32 * known..32 * known + 32].fill(hash_at(line, 5));
            known + 1
        }
        _ => known,
    }
}

// new makes the graph forget, add makes a hash known to it, and both answer 0; the others are above.
fn replay(rt: &impl Print, s: &[u8]) -> io::Result<()> {
    let mut graph = [0u8; 256];
    let mut known = 0;
    let mut queue = empty();
    let mut batch = empty();
    for at in 0..s.len() {
        if at == 0 || s[at - 1] == b'\n' {
            // A line that is cut short is read on past its end.
            let line = &s[at..];
            known = know(&mut graph, known, line);
            match byte_at(line, 0) {
                b'a' | b'n' => println!(rt; "0")?,
                b'q' => queue_line(rt, line, &graph, known, &mut queue)?,
                b'b' => batch_line(rt, line, &mut queue, &mut batch)?,
                _ => {}
            }
        }
    }
    Ok(())
}

// Reads until the buffer is full, the input ends or a read fails, and returns how many bytes stand at its beginning.
fn read_full<R: Read>(from: &mut R, buf: &mut [u8]) -> usize
    ensures { result ≤ length buf.new }
{
    // A read gives as many bytes as it likes: how many turns there are is not known before.
    let mut done = 0;
    while done < buf.len() {
        let Ok(n) = from.read(&mut buf[done..]) else {
            break;
        };
        if n == 0 {
            break;
        }
        done += n;
    }
    done
}

fn main(rt: HostRuntime) -> io::Result<()> {
    let mut input = [0u8; 4096];
    let n = read_full(&mut rt.reader(), &mut input);
    replay(&rt, &input[..n])
}
