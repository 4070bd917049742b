// Many pairs of files on one cycle for each scale: nothing is allocated from one pair to the next.
ghost use Rattle.std.specs.Prelude.{◌≡◌, IfOk};
ghost use Rattle.foldureem.specs.Told.{cut as the_part, is_taken, taken_among};

use crate::judging::{judge_on, nets_only};
use cycle::Cycle;
use scale::{Activation, Netting};
use std::alloc::{AllocError, Global};

// The bytes from a start to an end; none where these are no part.
fn cut(files: &[u8], start: usize, end: usize) -> &[u8]
    ensures { result.now ≡ the_part files.now start end }
{
    files.get(start..end).unwrap_or(&[])
}

// A cycle for each scale that a proposal can be for.
#[derive(Drop)]
struct Cycles {
    activation: Cycle<Activation>,
    netting: Cycle<Netting>,
}

impl Cycles {
    fn new(heap: Global) -> Result<Self, AllocError> {
        Ok(Cycles {
            activation: Cycle::new(heap)?,
            netting: Cycle::new(heap)?,
        })
    }

    // Is the proposal taken, on the scale that it is for?
    fn takes(&mut self, case: &[u8], proposal: &[u8]) -> bool
        ensures { result ≡ is_taken case.now proposal.now }
    {
        if nets_only(proposal) {
            judge_on(&mut self.netting, case, proposal).is_ok()
        } else {
            judge_on(&mut self.activation, case, proposal).is_ok()
        }
    }

    // How many of the pairs are taken. The files lie one behind the other, a case and then its proposal; `ends` says where each ends.
    fn count(&mut self, files: &[u8], ends: &[usize]) -> usize
        ensures { result ≡ taken_among files.now 0 ends.now }
    {
        let mut taken = 0;
        let mut start = 0;
        let (pairs, _) = ends.as_chunks::<2>();
        for [middle, end] in pairs {
            if self.takes(cut(files, start, *middle), cut(files, *middle, *end)) {
                taken += 1;
            }
            start = *end;
        }
        taken
    }
}

// The same on fresh cycles, or no memory.
pub fn count(heap: Global, files: &[u8], ends: &[usize]) -> Result<usize, AllocError>
    ensures { IfOk result (λ n. n ≡ taken_among files.now 0 ends.now) }
{
    Ok(Cycles::new(heap)?.count(files, ends))
}
