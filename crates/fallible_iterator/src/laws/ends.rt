// What is drawn from both ends.
ghost use Rattle.std.specs.Prelude.{◌≡◌, ℕ, ◌++◌, ◌∷◌, [], None, Ok, List, Result};
ghost use Rattle.fallible_contract.specs.Contract.{Stays};
ghost use Rattle.fallible_contract.specs.Ends.{from_front};
ghost use Rattle.fallible_contract.specs.Traces.{Answered, Run};
ghost use Rattle.fallible_contract.specs.Folds.{NthDrains};
ghost use Rattle.fallible_contract.specs.Lists.{rest_nth, result_answer};
ghost use Rattle.fallible_contract.specs.BothEnds.{ListsBothEnds, RunAtEnds, Interleaves};
ghost use Rattle.fallible_iterator.specs.Listing.{ListsAtEachEnd};
ghost use Rattle.fallible_contract.specs.declared.answers.Side.{Side};

use fallible_core::ends::Rev;
use fallible_core::traits::double_ended::DoubleEndedFallibleIterator;

/// The law of interleaving, of every type with two ends, and so of every nest of adapters: of draws from both ends of a value that lists l, what came from the front, what is left, and what came from the back, reversed, make l; and `Ok(None)` was returned only where nothing was left.
pub fn law_interleave<I: DoubleEndedFallibleIterator>()
    ensures { (s t : I) (l : List (Result I.Item I.Error))
        (drawn : List (Side × Answered I.Item I.Error))
        → ListsBothEnds I.contract.steps I.ends.steps s l
        → RunAtEnds I.contract.steps I.ends.steps s drawn t
        → Interleaves I.contract.steps I.ends.steps l drawn t }
{}

/// What both ends list, draw by draw: a draw from the front takes the first of it, and a draw from the back the last; and each end lists it.
pub fn law_draws<I: DoubleEndedFallibleIterator>()
    ensures front { (s t : I) (r : Answered I.Item I.Error) (y : Result I.Item I.Error)
        (l : List (Result I.Item I.Error))
        → ListsBothEnds I.contract.steps I.ends.steps s (y ∷ l) → I.contract.steps s r t
        → (r ≡ result_answer y) × ListsBothEnds I.contract.steps I.ends.steps t l }
    ensures back { (s t : I) (r : Answered I.Item I.Error) (y : Result I.Item I.Error)
        (l : List (Result I.Item I.Error))
        → ListsBothEnds I.contract.steps I.ends.steps s (l ++ y ∷ []) → I.ends.steps s r t
        → (r ≡ result_answer y) × ListsBothEnds I.contract.steps I.ends.steps t l }
    ensures each_end { ListsAtEachEnd I.contract.steps I.ends.steps }
{}

/// After draws from the front, as those of a search, a value that may be drawn from both ends still may be; and `nth` leaves what comes after the item, of what both ends list.
pub fn law_after_front<I: DoubleEndedFallibleIterator>()
    ensures stays { (s t : I) (trace : List (Answered I.Item I.Error)) → I.ends.can_next s
        → Run I.contract.steps s trace t → Stays (from_front I.contract I.ends) s t }
    ensures nth { (s t : I) (n : ℕ) (r : Answered I.Item I.Error)
        (l : List (Result I.Item I.Error))
        → ListsBothEnds I.contract.steps I.ends.steps s l
        → NthDrains I.contract.steps s n r t → ¬ (r ≡ Ok None)
        → ListsBothEnds I.contract.steps I.ends.steps t (rest_nth n l) }
{}
