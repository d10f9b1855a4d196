//! Laws of path assignments. A law is a function without a result, whose contract states the law. A proof uses the
//! law by calling the function.
ghost use Rattle.std.specs.Prelude.{◌≡◌, ◌≢◌, ◌↔◌, ℕ, List, All, Contains};
ghost use Rattle.lw_litmus.specs.Tests.{SourceTest};
ghost use Rattle.lw_litmus.specs.Sources.{source_language};
ghost use Rattle.lw_litmus.specs.WellFormedTests.{IsWellFormedSource};
ghost use Rattle.lw_base.specs.Lists.{IsDuplicateFree};
ghost use Rattle.lw_paths.specs.PathAssignments.{JumpsForward, IsPathAssignment};
ghost use Rattle.lw_paths.specs.AssignmentLists.{path_assignments};
ghost use Rattle.lw_paths.specs.Counts.{HasTooManyItems, IsTotalOrderCount, LimitFaultIsTrue, IsWithinLimits};
ghost use Rattle.lw_paths.specs.declared.fault.ListFault.{ListFault};
ghost use Rattle.lw_paths.specs.declared.fault.ListFault.TheVariants.{Memory};
ghost use Rattle.lw_paths.specs.Totals.{total_of};
ghost use Rattle.lw_paths.specs.Items.{items_of, constraints_of};
ghost use Rattle.lw_paths.specs.ReducedPairs.{reduced_constraints_of};
ghost use Rattle.lw_orders.specs.Order.{IsLinearExtension, IsOrderedByPath};
ghost use Rattle.lw_orders.specs.Orientations.{orientation_count};

use lw_litmus::Statement;

/// States that the list of path assignments of a program has each of them once, and nothing else, if jumps lead
/// forward, at most to the end.
pub fn path_assignments_are_complete<S: Statement>()
    ensures complete { (program : List (List S)) (paths : List (List ℕ)) → All (JumpsForward S.language) program
        → Contains (path_assignments S.language program) paths ↔ IsPathAssignment S.language program paths }
    ensures once { (program : List (List S)) → All (JumpsForward S.language) program → IsDuplicateFree (path_assignments S.language program) }
{}

/// States that the reduced pairs are equivalent to all preserved pairs: they have the same linear extensions, order the
/// same pairs, and leave as many orientations of the conflicts.
pub fn reduced_pairs_are_equivalent<S: Statement>()
    ensures orders { (program : List (List S)) (paths : List (List ℕ)) (order : List ℕ)
        → IsLinearExtension (reduced_constraints_of S.language program (items_of S.language program paths)) order
        ↔ IsLinearExtension (constraints_of S.language program (items_of S.language program paths)) order }
    ensures ordered { (program : List (List S)) (paths : List (List ℕ)) (p : ℕ × ℕ)
        → IsOrderedByPath (reduced_constraints_of S.language program (items_of S.language program paths)).preserved p
        ↔ IsOrderedByPath (constraints_of S.language program (items_of S.language program paths)).preserved p }
    ensures orientations { (program : List (List S)) (paths : List (List ℕ))
        → orientation_count (reduced_constraints_of S.language program (items_of S.language program paths))
        ≡ orientation_count (constraints_of S.language program (items_of S.language program paths)) }
{}

/// States that the total number of orders of all path assignments is unique, and is the number that the code
/// computes, if jumps lead forward, at most to the end. So a program that exceeds a limit is not within the limits.
pub fn totals_are_counted<S: Statement>()
    ensures counted { (program : List (List S)) → All (JumpsForward S.language) program
        → IsTotalOrderCount S.language program (total_of S.language program) }
    ensures unique { (program : List (List S)) (n m : ℕ)
        → IsTotalOrderCount S.language program n → IsTotalOrderCount S.language program m → n ≡ m }
    ensures apart { (program : List (List S)) (f : ListFault) → f ≢ Memory
        → LimitFaultIsTrue S.language program f → IsWithinLimits S.language program → ⊥ }
{}

/// States that a source test never has too many items for a list.
pub fn source_tests_have_few_items()
    ensures { (s : SourceTest) → IsWellFormedSource s → HasTooManyItems source_language s.threads → ⊥ }
{}
