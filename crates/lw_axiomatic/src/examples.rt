//! Worked examples: classic tests, as lw_bench has them as values, and a spin lock. A law is a function without a
//! result, whose contract states the law.
ghost use Rattle.std.specs.Prelude.{◌≡◌, ◌⊎◌, ℕ, false};
ghost use Rattle.lw_axiomatic.specs.Axioms.{SatisfiesAxioms, IsAllowed};
ghost use Rattle.lw_axiomatic.specs.Candidates.{IsCandidate};
ghost use Rattle.lw_axiomatic.specs.Examples.{both_loads_early, own_loads, own_loads_fenced, spin_lock};
ghost use Rattle.lw_axiomatic.specs.Executions.{MemoryEvent, Execution};
ghost use Rattle.lw_axiomatic.specs.Locks.{Acquires, IsUsedAsLock, IsOverBefore};
ghost use Rattle.lw_axiomatic.specs.Races.{HasTriangularRace};
ghost use Rattle.lw_axiomatic.specs.SpareFences.{AreSpare};
ghost use Rattle.lw_base.specs.Outcomes.{FinalState};
ghost use Rattle.lw_bench.specs.Classics.{store_buffering_in_x86, message_passing_in_x86};
ghost use Rattle.lw_litmus.specs.Programs.{x86_language};
ghost use Rattle.lw_report.specs.Truth.{is_true};
ghost use Rattle.lw_tso.specs.Fencing.{HasInsertedFences};

use crate::programs::critical_sections_do_not_overlap;
use lw_tso::fences_can_be_removed;

/// States of store buffering that the axioms allow both loads to read the initial words.
pub fn store_buffering_is_allowed()
    ensures { IsAllowed store_buffering_in_x86 both_loads_early }
{}

/// States that store buffering has a triangular race, and that message passing has none.
pub fn store_buffering_has_a_triangular_race()
    ensures some { HasTriangularRace store_buffering_in_x86 }
    ensures none { HasTriangularRace message_passing_in_x86 → ⊥ }
{}

/// States of two threads, each of which loads what only it stores, that their fences are spare. A fence between a
/// store and a load is spare if no other thread writes what the load reads and no further load follows.
pub fn the_fence_of_own_loads_is_spare()
    ensures { (inserted : HasInsertedFences own_loads own_loads_fenced) × AreSpare own_loads own_loads_fenced inserted }
{
    fences_can_be_removed();
}

/// States of the spin lock of examples/SpinLock-x86.litmus, which XCHG takes and a plain store lets go, that of any
/// number of threads no two are in their critical sections at once: the release of the one comes before the XCHG of
/// the other. With two threads, as in the text, no allowed outcome has both inside and only one counted.
pub fn the_spin_lock_excludes()
    ensures used { (threads : ℕ) (x : Execution) (o : FinalState) → IsCandidate x86_language (spin_lock threads) x o
        → IsUsedAsLock (spin_lock threads) x 1 }
    ensures exclusive { (threads : ℕ) (x : Execution) (o : FinalState) → IsCandidate x86_language (spin_lock threads) x o
        → SatisfiesAxioms (spin_lock threads) x → (r s : MemoryEvent)
        → Acquires (spin_lock threads) x 1 r → Acquires (spin_lock threads) x 1 s
        → (r ≡ s) ⊎ (IsOverBefore (spin_lock threads) x 1 r s ⊎ IsOverBefore (spin_lock threads) x 1 s r) }
    ensures outcomes { (o : FinalState) → IsAllowed (spin_lock 2) o → is_true (spin_lock 2).head.proposition o ≡ false }
{
    critical_sections_do_not_overlap();
}
