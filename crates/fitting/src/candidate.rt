// What is judged: a proposal beside the book of the case that it is for.

use layout::Proposal;
use market::Book;

#[derive(Clone, Copy)]
pub struct Candidate<'b, 'p, 'd> {
    pub book: &'b Book,
    pub proposal: &'p Proposal<'d>,
}
