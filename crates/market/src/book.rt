// The book of a case and the amounts of a selection, in memory that is reserved when they are made.
ghost use Rattle.std.specs.Prelude.{◌≡◌, ◌≤◌, [], IfOk, vec_capacity};
ghost use Rattle.market.specs.Cases.{Valid, case_of};

use crate::trade::{Bid, Border};
use std::alloc::{AllocError, Global};

// No case has more areas, borders or bids.
pub const AREAS: usize = 48;

pub const BORDERS: usize = 128;

pub const BIDS: usize = 1024;

// A case as it is held: its records keep their ranges, and its tables never grow past what was reserved for them.
#[derive(Drop)]
pub struct Book {
    pub demands: Vec<i32>,
    pub borders: Vec<Border>,
    pub bids: Vec<Bid>,
    ghost valid: { ∥ Valid (case_of demands.items borders.items bids.items) ∥₁ },
    ghost reserved: { (48 ≤ vec_capacity demands) × (128 ≤ vec_capacity borders) × (1024 ≤ vec_capacity bids) },
}

// The amounts of a selection: satisfied for each area, flow for each border, activated for each bid.
// It and a book are no one generic struct: a table is called by what it holds. Nor do they stand in one table: a selection is the solver's, and changes where its case stays.
#[derive(Drop)]
pub struct Amounts {
    pub satisfied: Vec<i32>,
    pub flows: Vec<i32>,
    pub activated: Vec<u32>,
    ghost reserved: { (48 ≤ vec_capacity satisfied) × (128 ≤ vec_capacity flows) × (1024 ≤ vec_capacity activated) },
}

impl Book {
    // An empty book with room for every case, or no memory.
    pub fn reserve(heap: Global) -> Result<Self, AllocError>
        ensures empty { IfOk result (λ b. (b.demands.items ≡ []) × (b.borders.items ≡ []) × (b.bids.items ≡ [])) }
    {
        Ok(Book {
            demands: Vec::with_capacity(heap, AREAS)?,
            borders: Vec::with_capacity(heap, BORDERS)?,
            bids: Vec::with_capacity(heap, BIDS)?,
        })
    }
}

impl Amounts {
    // No amounts yet, with room for every selection, or no memory.
    pub fn reserve(heap: Global) -> Result<Self, AllocError>
        ensures empty { IfOk result (λ b. (b.satisfied.items ≡ []) × (b.flows.items ≡ []) × (b.activated.items ≡ [])) }
    {
        Ok(Amounts {
            satisfied: Vec::with_capacity(heap, AREAS)?,
            flows: Vec::with_capacity(heap, BORDERS)?,
            activated: Vec::with_capacity(heap, BIDS)?,
        })
    }
}
