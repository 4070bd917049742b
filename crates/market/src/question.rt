// A question that is asked at places 0, 1, .. and refuses at the first that fails.
ghost use Rattle.std.specs.Prelude.{◌≡◌, ℕ, ◌<◌, Bool};
ghost use Rattle.market.specs.First.{first_no, ask as asked, FirstNo, FirstFails, Computes};
ghost use Rattle.market.specs.declared.refusal.Refusal.{Refusal as RefusalType};

use crate::refusal::Refusal;

// The first of so many places at which the test fails, or none.
pub fn first_no<F: Fn(usize) -> bool>(places: usize, passes: F) -> Option<usize>
    requires { (k : ℕ) → k < places → F.pre passes k }
    ensures fails { FirstFails (F.post passes) places result }
    ensures value { (ok : ℕ → Bool) → Computes (F.post passes) places ok → result ≡ first_no ok 0 places }
    ensures first { (ok : ℕ → Bool) → Computes (F.post passes) places ok → FirstNo ok places result }
{
    // No `find`: that a question is a loop over places, and stops at the first no, is a form that docs/DECISIONS.md names.
    for place in 0..places {
        if !passes(place) {
            return Some(place);
        }
    }
    None
}

// A yes, or the refusal at the first place that fails the test.
pub fn ask<F: Fn(usize) -> bool, R: Fn(usize) -> Refusal>(
    places: usize,
    passes: F,
    refusal: R,
) -> Result<(), Refusal>
    requires test { (k : ℕ) → k < places → F.pre passes k }
    requires no { (k : ℕ) → k < places → R.pre refusal k }
    ensures { (ok : ℕ → Bool) (no : ℕ → RefusalType) → Computes (F.post passes) places ok → Computes (R.post refusal) places no → result ≡ asked ok places no }
{
    match first_no(places, passes) {
        Some(place) => Err(refusal(place)),
        None => Ok(()),
    }
}
