// The laws of the adapters that buffer.
ghost use Rattle.std.specs.Prelude.{◌≡◌, ◌++◌, ◌∷◌, Bool, true, false, List, Result, Ok, Err, [], map};
ghost use Rattle.fallible_itertools_adapters.specs.Coalesce.{OneOrBoth, coalesced, deduped, deduped_by, deduped_by_key};
ghost use Rattle.fallible_itertools_adapters.specs.Positions.{positioned};
ghost use Rattle.fallible_itertools_adapters.specs.declared.positions.Position.TheVariants.{First, Last, Middle, Only};

/// Of two equal items that stand next to each other the first one is kept. A failure stands in its place.
#[tactic(auto, unfolding(crate::specs::Coalesce::deduped))]
pub fn law_deduped<T: PartialEq, E>()
    ensures none { deduped T.eq {E = E} [] ≡ [] }
    ensures one { (y : T) → deduped T.eq {E = E} (Ok y ∷ []) ≡ Ok y ∷ [] }
    ensures equal { (y x : T) (l : List (Result T E)) → T.eq y x ≡ true
        → deduped T.eq (Ok y ∷ Ok x ∷ l) ≡ deduped T.eq (Ok y ∷ l) }
    ensures others { (y x : T) (l : List (Result T E)) → T.eq y x ≡ false
        → deduped T.eq (Ok y ∷ Ok x ∷ l) ≡ Ok y ∷ deduped T.eq (Ok x ∷ l) }
    ensures failure { (e : E) (l : List (Result T E))
        → deduped T.eq (Err e ∷ l) ≡ Err e ∷ deduped T.eq l }
    ensures before_failure { (y : T) (e : E) (l : List (Result T E))
        → deduped T.eq (Ok y ∷ Err e ∷ l) ≡ Ok y ∷ Err e ∷ deduped T.eq l }
{}

/// Two items that the closure merges are the one that it makes of them. Of two that it keeps apart the first one is kept, and the second one goes on. If the closure fails on two, both are lost, and its failure comes. A failure of the list stands in its place.
#[tactic(auto, unfolding(crate::specs::Coalesce::coalesced))]
pub fn law_coalesced<T, E>()
    ensures none { (h : T → T → OneOrBoth T E) → coalesced h [] ≡ [] }
    ensures one { (h : T → T → OneOrBoth T E) (y : T) → coalesced h (Ok y ∷ []) ≡ Ok y ∷ [] }
    ensures merged { (h : T → T → OneOrBoth T E) (y x z : T) (l : List (Result T E))
        → h y x ≡ Ok (Ok z) → coalesced h (Ok y ∷ Ok x ∷ l) ≡ coalesced h (Ok z ∷ l) }
    ensures both { (h : T → T → OneOrBoth T E) (y x a b : T) (l : List (Result T E))
        → h y x ≡ Ok (Err (a, b)) → coalesced h (Ok y ∷ Ok x ∷ l) ≡ Ok a ∷ coalesced h (Ok b ∷ l) }
    ensures failed { (h : T → T → OneOrBoth T E) (y x : T) (e : E) (l : List (Result T E))
        → h y x ≡ Err e → coalesced h (Ok y ∷ Ok x ∷ l) ≡ Err e ∷ coalesced h l }
    ensures failure { (h : T → T → OneOrBoth T E) (e : E) (l : List (Result T E))
        → coalesced h (Err e ∷ l) ≡ Err e ∷ coalesced h l }
    ensures before_failure { (h : T → T → OneOrBoth T E) (y : T) (e : E) (l : List (Result T E))
        → coalesced h (Ok y ∷ Err e ∷ l) ≡ Ok y ∷ Err e ∷ coalesced h l }
{}

/// Of two items that the closure finds the same the first one is kept. If the closure fails on two, the first one is kept, and its failure stands in the place of the second one. A failure of the list stands in its place.
#[tactic(auto, unfolding(crate::specs::Coalesce::deduped_by))]
pub fn law_deduped_by<T, E>()
    ensures none { (h : T → T → Result Bool E) → deduped_by h [] ≡ [] }
    ensures one { (h : T → T → Result Bool E) (y : T) → deduped_by h (Ok y ∷ []) ≡ Ok y ∷ [] }
    ensures same { (h : T → T → Result Bool E) (y x : T) (l : List (Result T E))
        → h y x ≡ Ok true → deduped_by h (Ok y ∷ Ok x ∷ l) ≡ deduped_by h (Ok y ∷ l) }
    ensures others { (h : T → T → Result Bool E) (y x : T) (l : List (Result T E))
        → h y x ≡ Ok false → deduped_by h (Ok y ∷ Ok x ∷ l) ≡ Ok y ∷ deduped_by h (Ok x ∷ l) }
    ensures failed { (h : T → T → Result Bool E) (y x : T) (e : E) (l : List (Result T E))
        → h y x ≡ Err e → deduped_by h (Ok y ∷ Ok x ∷ l) ≡ Ok y ∷ Err e ∷ deduped_by h l }
    ensures failure { (h : T → T → Result Bool E) (e : E) (l : List (Result T E))
        → deduped_by h (Err e ∷ l) ≡ Err e ∷ deduped_by h l }
    ensures before_failure { (h : T → T → Result Bool E) (y : T) (e : E) (l : List (Result T E))
        → deduped_by h (Ok y ∷ Err e ∷ l) ≡ Ok y ∷ Err e ∷ deduped_by h l }
{}

/// Of two items that stand next to each other and have equal keys the first one is kept. Where the closure fails, its failure stands in the place of the item. A failure of the list stands in its place.
#[tactic(auto, unfolding(crate::specs::Coalesce::deduped_by_key))]
pub fn law_deduped_by_key<T, K: PartialEq, E>()
    ensures none { (h : T → Result K E) → deduped_by_key K.eq h [] ≡ [] }
    ensures one { (h : T → Result K E) (y : T) (k : K) → h y ≡ Ok k
        → deduped_by_key K.eq h (Ok y ∷ []) ≡ Ok y ∷ [] }
    ensures equal { (h : T → Result K E) (y x : T) (k j : K) (l : List (Result T E))
        → h y ≡ Ok k → h x ≡ Ok j → K.eq k j ≡ true
        → deduped_by_key K.eq h (Ok y ∷ Ok x ∷ l) ≡ deduped_by_key K.eq h (Ok y ∷ l) }
    ensures others { (h : T → Result K E) (y x : T) (k j : K) (l : List (Result T E))
        → h y ≡ Ok k → h x ≡ Ok j → K.eq k j ≡ false
        → deduped_by_key K.eq h (Ok y ∷ Ok x ∷ l) ≡ Ok y ∷ deduped_by_key K.eq h (Ok x ∷ l) }
    ensures failed { (h : T → Result K E) (x : T) (e : E) (l : List (Result T E)) → h x ≡ Err e
        → deduped_by_key K.eq h (Ok x ∷ l) ≡ Err e ∷ deduped_by_key K.eq h l }
    ensures next_failed { (h : T → Result K E) (y x : T) (k : K) (e : E) (l : List (Result T E))
        → h y ≡ Ok k → h x ≡ Err e
        → deduped_by_key K.eq h (Ok y ∷ Ok x ∷ l) ≡ Ok y ∷ Err e ∷ deduped_by_key K.eq h l }
    ensures failure { (h : T → Result K E) (e : E) (l : List (Result T E))
        → deduped_by_key K.eq h (Err e ∷ l) ≡ Err e ∷ deduped_by_key K.eq h l }
{}

/// An item alone is `Only`; of several items the first is `First`, the last is `Last`, and the others are `Middle`. Nothing is made of an empty list. A failure parts a list: the items before it have their positions by themselves, and so do those after it.
pub fn law_positioned<T, E>()
    ensures parts { (a : List (Result T E)) (e : E) (b : List (Result T E))
        → positioned (a ++ Err e ∷ b) ≡ positioned a ++ Err e ∷ positioned b }
    ensures several { (x : T) (a : List T) (y : T)
        → positioned {E = E} (Ok x ∷ map (λ z. Ok z) a ++ Ok y ∷ [])
        ≡ Ok (First, x) ∷ map (λ z. Ok (Middle, z)) a ++ Ok (Last, y) ∷ [] }
    ensures one { (x : T) → positioned {E = E} (Ok x ∷ []) ≡ Ok (Only, x) ∷ [] }
    ensures none { positioned {A = T} {E = E} [] ≡ [] }
{}
