//! Visiting all path assignments of a program, without a list of them.
ghost use Rattle.std.specs.Prelude.{◌≡◌, ℕ, ◌<◌, ◌≤◌, List, [], ◌∷◌, length, All, OnOk, IfErr};
ghost use Rattle.std.specs.Option.{option_to_list};
ghost use Rattle.lw_base.specs.Threads.{thread_code};
ghost use Rattle.lw_litmus.specs.Limits.{most_instructions};
ghost use Rattle.lw_paths.specs.AssignmentLists.{successors, path_assignments};
ghost use Rattle.lw_paths.specs.Views.{path_of, assignment_of};
ghost use Rattle.lw_paths.specs.Visits.{VisitsAll, VisitFails, IsVisitable, CanExtendPath, assignments_along};
ghost use Rattle.lw_paths.specs.inner.Visiting.{VisitResult};

use crate::path::{Path, PathAssignment};
use lw_base::Sequence;
use lw_litmus::Statement;
use std::alloc::Allocator;

/// A visitor of path assignments.
pub trait Visitor {
    /// Why a visit fails, which ends all visits.
    type Fault;

    /// The relation between the visitor before a visit, the path assignment, and the visitor after it.
    ghost visits: { Self → List (List ℕ) → Self → Type 0 };

    /// What a failure means.
    ghost refuses: { Self → List (List ℕ) → Self.Fault → Type 0 };

    /// Visits a path assignment.
    fn visit(&mut self, assignment: &PathAssignment) -> Result<(), Self::Fault>
        ensures ok { OnOk result (visits self.old (assignment_of assignment.now) self.new) }
        ensures err { IfErr result (λ e. refuses self.old (assignment_of assignment.now) e) };
}

/// Returns the successors of a statement: one position, and a second if there are two.
pub(crate) fn successors<S: Statement>(stmt: &S, at: usize) -> (usize, Option<usize>)
    requires { at < most_instructions }
    ensures { (result.0 ∷ option_to_list result.1) ≡ successors S.language stmt.now at }
{
    let next = at + 1;
    let Some(to) = stmt.operation().target() else {
        return (next, None);
    };
    if !stmt.operation().falls_through() {
        return (to, None);
    }
    if next == to {
        return (next, None);
    }
    (next, Some(to))
}

/// Visits each path assignment that begins with these paths, and whose next path begins with `path` and continues at
/// a position.
fn visit_from<S: Statement, A: Allocator, V: Visitor>(
    program: &[Sequence<S, A>],
    assignment: &PathAssignment,
    path: &Path,
    at: usize,
    visitor: &mut V,
) -> Result<(), V::Fault>
    requires { CanExtendPath S.language program.now (assignment_of assignment.now) (path_of path.now) at }
    ensures { VisitResult V.visits V.refuses (assignments_along S.language program.now (assignment_of assignment.now) (path_of path.now) at) visitor.old result visitor.new }
{
    let code = &program[assignment.len()];
    let Some(stmt) = code.get(at) else {
        let assignment = assignment.with(*path);
        if assignment.len() == program.len() {
            return visitor.visit(&assignment);
        }
        return visit_from(program, &assignment, &Path::new(), 0, visitor);
    };
    let path = path.with(at as u8);
    let (first, second) = successors(stmt, at);
    visit_from(program, assignment, &path, first, visitor)?;
    match second {
        Some(to) => visit_from(program, assignment, &path, to, visitor),
        None => Ok(()),
    }
}

/// Visits each path assignment of a program, the first thread's path changing slowest, until a visit fails.
pub fn visit_assignments<S: Statement, A: Allocator, V: Visitor>(
    program: &[Sequence<S, A>],
    visitor: &mut V,
) -> Result<(), V::Fault>
    requires { IsVisitable S.language program.now }
    ensures ok { OnOk result (VisitsAll V.visits (path_assignments S.language program.now) visitor.old visitor.new) }
    ensures err { IfErr result (λ e. VisitFails V.visits V.refuses (path_assignments S.language program.now) visitor.old e) }
{
    if program.is_empty() {
        return visitor.visit(&PathAssignment::new());
    }
    visit_from(program, &PathAssignment::new(), &Path::new(), 0, visitor)
}
