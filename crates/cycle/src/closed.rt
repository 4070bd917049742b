// What only a closed cycle does.
ghost use Rattle.std.specs.Prelude.{◌≡◌};
ghost use Rattle.cycle.specs.Calls.{release_answer, released};
ghost use Rattle.cycle.specs.View.{view};

use crate::cycle::Closed;
use crate::out::copy_out;
use market::Refusal;

impl<S> Closed<S> {
    // Puts the listing of what stands into a buffer; says how many bytes it has.
    pub fn release(&mut self, out: &mut [u8]) -> Result<usize, Refusal>
        ensures answer { result ≡ release_answer (view self.old).case (view self.old).standing out.old }
        ensures out { out.new ≡ released (view self.old).case (view self.old).standing out.old }
        ensures same { view self.new ≡ view self.old }
    {
        let Some(standing) = self.holdings.standing() else {
            return Err(Refusal::NothingStands);
        };
        self.text.render(&standing);
        copy_out(self.text.as_slice(), out)
    }
}
