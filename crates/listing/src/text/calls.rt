// What is done with the memory of a listing.
ghost use Rattle.std.specs.Prelude.{◌≡◌, [], IfOk};
ghost use Rattle.listing.specs.Lines.{listing};
ghost use Rattle.listing.specs.View.{text_of, room_of, case_in, selection_in};

use crate::tally::totals;
use crate::text::{ROOM, Text};
use market::Settled;
use std::alloc::{AllocError, Global};

impl Text {
    // No text yet, with room for every listing, or no memory.
    pub fn reserve(heap: Global) -> Result<Self, AllocError>
        ensures empty { IfOk result (λ t. text_of t ≡ []) }
    {
        Ok(Text {
            bytes: Vec::with_capacity(heap, ROOM)?,
        })
    }

    // The text becomes the listing of what stands, in the memory that it has.
    pub fn render(&mut self, standing: &Settled)
        ensures text { text_of self.new ≡ listing (case_in standing.now) (selection_in standing.now) }
        ensures room { room_of self.new ≡ room_of self.old }
    {
        self.clear();
        self.push_heading();
        self.push_areas(standing);
        self.push_flows(standing);
        self.push_bids(standing);
        self.push_total(totals(standing));
    }

    // No text.
    pub fn clear(&mut self)
        ensures empty { text_of self.new ≡ [] }
        ensures room { room_of self.new ≡ room_of self.old }
    {
        self.bytes.clear();
    }

    // The text's bytes.
    pub fn as_slice(&self) -> &[u8]
        ensures { result.now ≡ text_of self.now }
    {
        self.bytes.as_slice()
    }
}
