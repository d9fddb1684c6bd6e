// The text session, from C: a change list in, its answers out.
ghost use Rattle.std.specs.Prelude.{◌≡◌, length};
ghost use Rattle.paper.specs.Session.{session, number_in, length_in, buffer_in};
ghost use Rattle.lent_place.specs.Places.{told_in};

#[unsafe(no_mangle)]
pub extern "C" fn cg_session(input: &[u8], answer: &mut [u8], told: &mut [u64]) -> u32
    ensures value { result ≡ number_in (session input.now) (length answer.old) }
    ensures told_after { told.new ≡ told_in (length_in (session input.now) (length answer.old)) told.old }
    ensures answer_after { answer.new ≡ buffer_in (session input.now) answer.old }
{
    session::cg_session(input, answer, told)
}
