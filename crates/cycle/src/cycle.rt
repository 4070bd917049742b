// A cycle, made for one scale of cost: open at first, and closed in the end.
ghost use Rattle.std.specs.Prelude.{◌≡◌, IfOk, Ok};
ghost use Rattle.market.specs.Held.{held};
ghost use Rattle.market.specs.Totals.{Unbeaten};
ghost use Rattle.layout.specs.ProposalBytes.{counts_of};
ghost use Rattle.cycle.specs.States.{fresh};
ghost use Rattle.cycle.specs.Calls.{after, load_answer, loaded, submit_answer, submitted, proposed, changed, answer_to, next, write_answer, write_after};
ghost use Rattle.cycle.specs.Sent.{sent, read_answer};
ghost use Rattle.market.specs.Changes.{revise_answer, revised, limit_answer, limited, withdraw_answer, withdrawn};
ghost use Rattle.cycle.specs.Totals.{standing_totals};
ghost use Rattle.cycle.specs.View.{view};

use crate::calls::{Answer, Call, Item};
use crate::holdings::Holdings;
use layout::Counts;
use listing::{Text, Totals};
use market::{Book, Refusal};
use scale::Scale;
use std::alloc::{AllocError, Global};
use std::marker::PhantomData;

// The two phases of a cycle, of which no value is ever made.
pub enum Open {}

pub enum Shut {}

// Not `Copy`: `close` takes it away.
#[derive(Drop)]
pub struct Cycle<S, P = Open> {
    pub(crate) holdings: Holdings,
    // room for the listing
    pub(crate) text: Text,
    pub(crate) scale: PhantomData<S>,
    pub(crate) phase: PhantomData<P>,
}

// A closed cycle: nothing changes it, and it releases what stands.
pub type Closed<S> = Cycle<S, Shut>;

// What a cycle answers in either phase.
impl<S, P> Cycle<S, P> {
    // The standing amount of an area, border or bid.
    pub fn read(&self, item: Item) -> Result<i64, Refusal>
        ensures { result ≡ read_answer (view self.now).case (view self.now).standing item }
    {
        self.holdings.read(item)
    }

    // Puts the bytes of the case into a buffer; says how many they are.
    pub fn write(&self, out: &mut [u8]) -> Result<usize, Refusal>
        ensures answer { result ≡ write_answer (view self.now).case out.old }
        ensures out { out.new ≡ write_after (view self.now).case out.old }
    {
        writing::write_case(&self.holdings.book, out)
    }

    // The totals of what stands; none where nothing stands.
    pub fn totals(&self) -> Option<Totals>
        ensures { result ≡ standing_totals (view self.now) }
    {
        self.holdings.totals()
    }
}

impl<S: Scale> Cycle<S> {
    // A fresh cycle, with all memory that it will ever use, or no memory.
    pub fn new(heap: Global) -> Result<Self, AllocError>
        ensures fresh { IfOk result (λ c. view c ≡ fresh) }
    {
        Ok(Cycle {
            holdings: Holdings::reserve(heap)?,
            text: Text::reserve(heap)?,
            scale: PhantomData,
            phase: PhantomData,
        })
    }

    // Replaces the case by the one in the bytes, and ends what stood.
    pub fn load(&mut self, bytes: &[u8]) -> Result<(), Refusal>
        ensures answer { result ≡ load_answer S.Scale.meaning bytes.now }
        ensures after { view self.new ≡ after result (view self.old) (loaded bytes.now) }
    {
        self.holdings
            .change(|book| layout::load(book, bytes, S::bids_take_part()))
    }

    // Sets an area's demand, and ends what stood.
    pub fn revise(&mut self, area: usize, demand: i32) -> Result<(), Refusal>
        ensures answer { result ≡ revise_answer (view self.old).case area demand }
        ensures after { view self.new ≡ after result (view self.old) (changed (revised (view self.old).case area demand)) }
    {
        self.holdings.change(|book| book.revise(area, demand))
    }

    // Sets a border's two limits, and ends what stood.
    pub fn limit(&mut self, border: usize, forward: u32, backward: u32) -> Result<(), Refusal>
        ensures answer { result ≡ limit_answer (view self.old).case border forward backward }
        ensures after { view self.new ≡ after result (view self.old) (changed (limited (view self.old).case border forward backward)) }
    {
        self.holdings
            .change(|book| book.limit(border, forward, backward))
    }

    // Makes a bid's volume 0, and ends what stood.
    pub fn withdraw(&mut self, bid: usize) -> Result<(), Refusal>
        ensures answer { result ≡ withdraw_answer (view self.old).case bid }
        ensures after { view self.new ≡ after result (view self.old) (changed (withdrawn (view self.old).case bid)) }
    {
        self.holdings.change(|book| book.withdraw(bid))
    }

    // Makes the selection in the bytes the standing one, if the prices sent with it show that nothing beats it.
    pub fn submit(&mut self, bytes: &[u8]) -> Result<(), Refusal>
        ensures answer { result ≡ submit_answer S.Scale.meaning (view self.old).case bytes.now }
        ensures after { view self.new ≡ after result (view self.old) (submitted (view self.old).case bytes.now) }
        ensures unbeaten { result ≡ Ok tt → Unbeaten S.Scale.meaning (view self.old).case (proposed (view self.old).case bytes.now) }
    {
        let counts = counts(&self.holdings.book);
        let proposal = layout::read_proposal(bytes, counts, S::levels())?;
        fitting::judge::<S>(&self.holdings.book, &proposal)?;
        self.holdings.stand(&proposal);
        Ok(())
    }

    // Makes any of these calls.
    pub fn make(&mut self, call: Call) -> Answer
        ensures answer { result ≡ answer_to S.Scale.meaning (view self.old) (sent call.entry) }
        ensures after { view self.new ≡ next S.Scale.meaning (view self.old) (sent call.entry) }
    {
        match call {
            Call::Load(bytes) => self.load(bytes)?,
            Call::Revise(area, demand) => self.revise(area, demand)?,
            Call::Limit(border, forward, backward) => self.limit(border, forward, backward)?,
            Call::Withdraw(bid) => self.withdraw(bid)?,
            Call::Submit(bytes) => self.submit(bytes)?,
            Call::Read(item) => return self.read(item).map(Some),
        }
        Ok(None)
    }

    // Takes the cycle away and gives a closed one, which can release what stands.
    pub fn close(self) -> Closed<S>
        ensures { view result ≡ view self }
    {
        let Cycle {
            holdings,
            text,
            scale,
            phase: _,
        } = self;
        Cycle {
            holdings,
            text,
            scale,
            phase: PhantomData,
        }
    }
}

// How many areas, borders and bids the case has.
fn counts(book: &Book) -> Counts
    ensures { result ≡ counts_of (held book.now) }
{
    Counts {
        areas: book.demands.len(),
        borders: book.borders.len(),
        bids: book.bids.len(),
    }
}
