//! The public laws: what holds of all orders, whether or not this crate computes them.

ghost use Rattle.std.specs.Prelude.{◌≡◌, ◌↔◌, ◌<◌, ◌++◌, [], ◌∷◌, ℕ, List, Bool, IsTrue, All, length};
ghost use Rattle.lw_orders.specs.Order.{Constraints, IsWellFormed, IsLinearExtension, IsOrder, AreDistinct, index_in, AreTraceEquivalent, ExactlyOne};
ghost use Rattle.lw_orders.specs.Order.{IsOrderedByPath, AreUnorderedConflicts, HasOrientationCount};
ghost use Rattle.lw_orders.specs.Orientations.{unordered_conflicts, is_ordered, orientation_count};
ghost use Rattle.lw_orders.specs.Sequence.{indices, orders};
ghost use Rattle.lw_orders.specs.Swaps.{AreConnected, IsSwapInvariant};

/// States that two trace-equivalent linear extensions are connected by swaps of adjacent items that
/// neither conflict nor are preserved, through linear extensions only.
pub fn trace_equivalent_orders_are_connected()
    ensures { (t : Constraints) → IsWellFormed t
        → (xs ys : List ℕ) → IsLinearExtension t xs → IsLinearExtension t ys → AreTraceEquivalent t.conflicts xs ys
        → AreConnected t xs ys }
{}

/// States that a test of orders (such as whether the run of an order ends in a given way) has the same
/// value on trace-equivalent linear extensions, if every swap of adjacent independent items preserves its value.
pub fn trace_equivalent_orders_agree()
    ensures { (t : Constraints) → IsWellFormed t → (test : List ℕ → Bool) → IsSwapInvariant t test
        → (xs ys : List ℕ) → IsLinearExtension t xs → IsLinearExtension t ys → AreTraceEquivalent t.conflicts xs ys
        → test xs ≡ test ys }
{}

/// States that a pair is ordered if and only if a path of preserved pairs leads from its first item to
/// its second.
pub fn paths_order_pairs()
    ensures { (t : Constraints) → IsWellFormed t → (p : ℕ × ℕ) → IsTrue (is_ordered t.preserved p) ↔ IsOrderedByPath t.preserved p }
{}

/// States that the computed unordered conflicts are those that no path orders, and that the number of
/// their orientations is 2 to the power of their number, and no other.
pub fn orientations_are_counted()
    ensures pairs { (t : Constraints) → IsWellFormed t → AreUnorderedConflicts t (unordered_conflicts t) }
    ensures number { (t : Constraints) → IsWellFormed t → (n : ℕ) → HasOrientationCount t n ↔ (n ≡ orientation_count t) }
{}

/// States, of all well-formed items, that every order of `Orders` is a linear extension, and that each linear
/// extension is trace-equivalent to exactly one of them.
pub fn orders_are_complete()
    ensures each { (t : Constraints) → IsWellFormed t → All (IsLinearExtension t) (orders t) }
    ensures exactly_one { (t : Constraints) → IsWellFormed t
        → (o : List ℕ) → IsLinearExtension t o → ExactlyOne (AreTraceEquivalent t.conflicts o) (orders t) }
{}

/// States that there is one order if no conflict is unordered: the items in ascending order.
pub fn one_order_without_unordered_conflicts()
    ensures { (t : Constraints) → IsWellFormed t → unordered_conflicts t ≡ [] → orders t ≡ indices 0 t.len ∷ [] }
{}

/// States that an order of n items has each item at exactly one index and nothing else, and that a list
/// of these items in which each is found, without duplicates, is an order of them.
pub fn orders_are_permutations()
    ensures within { (n : ℕ) (order : List ℕ) → IsOrder n order → All (λ i. i < n) order }
    ensures once { (n : ℕ) (order : List ℕ) → IsOrder n order → AreDistinct order }
    ensures found { (n i : ℕ) (front rest : List ℕ) → IsOrder n (front ++ i ∷ rest)
        → index_in (front ++ i ∷ rest) i ≡ length front }
    ensures order { (n : ℕ) (xs : List ℕ) → All (λ i. i < n) xs → AreDistinct xs
        → ((i : ℕ) → i < n → index_in xs i < length xs) → IsOrder n xs }
{}
