// The answer lines of a session: a word, a tab, what is answered, and LF. Each goes into the answer buffer at `at`, and the place past it is handed back.
// Where a line does not fit there is no place; what was written of it stays for the session to clear.
#![tactic(auto)]

ghost use Rattle.std.specs.Prelude.{◌≡◌, List, [], ◌∷◌, ◌++◌, ◌*◌, ◌≤◌, ◌<◌, length, ℕ};
ghost use Rattle.paper.specs.Lists.{hashes_from};
ghost use Rattle.paper.specs.Text.{digits_of, hex_of, clock_text, list_text};
ghost use Rattle.paper.specs.Command.{heads_word, clock_word, missing_word, owner_word, add_word};
ghost use Rattle.paper.specs.Session.{answer_line, bad_text};
ghost use Rattle.reply.specs.Said.{Puts, Said};

// A line: a word with its tab, what `part` puts after it, and LF.
fn put_line<F: FnOnce(&mut [u8], usize) -> Option<usize>>(
    out: &mut [u8],
    at: usize,
    word: &[u8],
    part: F,
) -> Option<usize>
    requires at_in_bounds { at ≤ length out.old }
    requires callable { (o : _) (p : _) → p ≤ length o.now → F.pre part o p }
    requires puts { (text : List ℕ) × Puts (F.post part) text }
    ensures { (text : List ℕ) → Puts (F.post part) text → Said ((word.now ++ text) ++ (10 ∷ [])) at result out.old out.new }
{
    let p = print::put_bytes(out, at, word)?;
    let q = part(out, p)?;
    print::put_bytes(out, q, b"\n")
}

// `bad` and the number of a line.
pub fn put_bad(out: &mut [u8], at: usize, line: u64) -> Option<usize>
    requires { at ≤ length out.old }
    ensures { Said (bad_text line) at result out.old out.new }
{
    put_line(out, at, b"bad\t", |out, p| print::put_number(out, p, line))
}

// `heads` and the first n hashes of a list.
pub fn put_heads(out: &mut [u8], at: usize, list: &[u8], n: usize) -> Option<usize>
    requires { (at ≤ length out.old) × (32 * n ≤ length list.now) }
    ensures { Said (answer_line heads_word (list_text (hashes_from list.now n 0))) at result out.old out.new }
{
    put_line(
        out,
        at,
        b"heads\t",
        |out, p| print::put_list(out, p, list, n),
    )
}

// `missing` and the first n hashes of a list.
pub fn put_missing(out: &mut [u8], at: usize, list: &[u8], n: usize) -> Option<usize>
    requires { (at ≤ length out.old) × (32 * n ≤ length list.now) }
    ensures { Said (answer_line missing_word (list_text (hashes_from list.now n 0))) at result out.old out.new }
{
    put_line(
        out,
        at,
        b"missing\t",
        |out, p| print::put_list(out, p, list, n),
    )
}

// `clock` and its entries.
pub fn put_clock(out: &mut [u8], at: usize, clock: &[u32]) -> Option<usize>
    requires { (at ≤ length out.old) × (0 < length clock.now) × (length clock.now ≤ 64) }
    ensures { Said (answer_line clock_word (clock_text clock.now)) at result out.old out.new }
{
    put_line(
        out,
        at,
        b"clock\t",
        |out, p| print::put_clock(out, p, clock),
    )
}

// `owner` and the hash of the owner.
pub fn put_owner(out: &mut [u8], at: usize, hash: &[u8]) -> Option<usize>
    requires { (at ≤ length out.old) × (length hash.now ≡ 32) }
    ensures { Said (answer_line owner_word (hex_of hash.now)) at result out.old out.new }
{
    put_line(out, at, b"owner\t", |out, p| print::put_hash(out, p, hash))
}

// `owner` and 14: no change owns the op.
pub fn put_no_owner(out: &mut [u8], at: usize) -> Option<usize>
    requires { at ≤ length out.old }
    ensures { Said (answer_line owner_word (digits_of 14)) at result out.old out.new }
{
    print::put_bytes(out, at, b"owner\t14\n")
}

// `add` and its number.
pub fn put_add(out: &mut [u8], at: usize, number: u64) -> Option<usize>
    requires { at ≤ length out.old }
    ensures { Said (answer_line add_word (digits_of number)) at result out.old out.new }
{
    put_line(
        out,
        at,
        b"add\t",
        |out, p| print::put_number(out, p, number),
    )
}

// `add`, 4 and the hash that is unknown.
pub fn put_unknown(out: &mut [u8], at: usize, hash: &[u8]) -> Option<usize>
    requires { (at ≤ length out.old) × (length hash.now ≡ 32) }
    ensures { Said (answer_line add_word (digits_of 4 ++ (9 ∷ hex_of hash.now))) at result out.old out.new }
{
    put_line(out, at, b"add\t4\t", |out, p| print::put_hash(out, p, hash))
}
