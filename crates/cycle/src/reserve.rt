// The memory of a cycle.
ghost use Rattle.std.specs.Prelude.{◌≡◌, IfOk};
ghost use Rattle.cycle.specs.States.{fresh};
ghost use Rattle.cycle.specs.View.{state_of};

use crate::holdings::Holdings;
use market::{Amounts, Book};
use std::alloc::{AllocError, Global};

impl Holdings {
    // Room for every case and selection, with the empty case and nothing that stands; or no memory.
    pub fn reserve(heap: Global) -> Result<Self, AllocError>
        ensures { IfOk result (λ h. state_of h ≡ fresh) }
    {
        Ok(Holdings {
            book: Book::reserve(heap)?,
            amounts: Amounts::reserve(heap)?,
            stands: false,
        })
    }
}
