// Why one price for each area proves a selection the best, on any scale. The functions compute nothing: their contracts are the theorem.
#![tactic(auto)]

ghost use Rattle.optimality.specs.Theorem.{FittingIsUnbeaten, UnbeatenHasPrices, UnbeatenExactlyWhenPricesFit};

use scale::Scale;

// A selection within the limits that some prices fit is unbeaten.
pub fn fitting_prices_leave_no_better<S: Scale>()
    ensures fitting_is_unbeaten { FittingIsUnbeaten S.Scale.meaning }
{}

// Every unbeaten selection has prices, in range, that fit it.
pub fn unbeaten_has_fitting_prices<S: Scale>()
    ensures unbeaten_has_prices { UnbeatenHasPrices S.Scale.meaning }
{}

// Of the selections within the limits, the unbeaten ones are exactly those that some prices fit.
pub fn unbeaten_exactly_when_prices_fit<S: Scale>()
    ensures exactly { UnbeatenExactlyWhenPricesFit S.Scale.meaning }
{}
