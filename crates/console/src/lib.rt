// A change list from standard input answered on standard output, for the programs: at most 65,536 bytes each way. With more input, or a longer answer, nothing is written.
// A read that fails is the end of the input, and a write that fails the end of the answer.
#![tactic(auto)]

ghost use Rattle.std.specs.Prelude.{◌≡◌, ◌≤◌, length, take};
ghost use Rattle.console.specs.Written.{written};

use std::io::{self, Input, Print, Read, Write};

// How many bytes of the buffer the program writes.
fn respond(input: &[u8], answer: &mut [u8]) -> usize
    requires { length answer.old ≡ 65536 }
    ensures prefix_len { (result ≤ length answer.new) × (result ≡ length (take result answer.new)) }
    ensures answer_after { take result answer.new ≡ written 65536 input.now }
{
    if 65536 < input.len() {
        return 0;
    }
    let mut told = [0u64; 1];
    session::cg_session(input, answer, &mut told);
    told[0] as usize
}

// Writes the answer.
fn tell<W: Write>(input: &[u8], answer: &mut [u8], to: &mut W)
    requires { length answer.old ≡ 65536 }
{
    let n = respond(input, answer);
    let _ = to.write_all(&answer[..n]);
}

// Reads until the buffer is full, the input ends or a read fails, and returns how many bytes stand at its beginning.
fn read_full<R: Read>(from: &mut R, buf: &mut [u8]) -> usize
    ensures { result ≤ length buf.new }
{
    let mut done = 0;
    // A `while`: each read tells how far it came.
    while done < buf.len() {
        match from.read(&mut buf[done..]) {
            Ok(0) | Err(_) => break,
            Ok(n) => done += n,
        }
    }
    done
}

// The input has a byte more than is answered, so that more input is seen.
pub fn answer<R: Input + Print>(rt: &R) {
    let mut input = [0u8; 65537];
    let n = read_full(&mut rt.reader(), &mut input);
    let mut answer = [0u8; 65536];
    tell(&input[..n], &mut answer, &mut io::writer(rt));
}
