// Putting a text into a buffer that a caller lends.
ghost use Rattle.std.specs.Prelude.{◌≡◌};
ghost use Rattle.cycle.specs.Calls.{room, put};

use market::Refusal;

// Three lines, as where `writing` asks for room: a call for them would be no shorter.
// The text goes to the front of the buffer, if it fits; what lies behind it stays.
pub fn copy_out(text: &[u8], out: &mut [u8]) -> Result<usize, Refusal>
    ensures answer { result ≡ room text.now out.old }
    ensures out { out.new ≡ put text.now out.old }
{
    let needed = text.len();
    if needed > out.len() {
        return Err(Refusal::Room(needed));
    }
    out[..needed].copy_from_slice(text);
    Ok(needed)
}
