//! The law that well-formed tests are well-scoped. A law is a function without a result, whose contract states the law. A proof uses the law
//! by calling the function.
ghost use Rattle.lw_litmus.specs.Tests.{SourceTest, X86Test};
ghost use Rattle.lw_litmus.specs.WellFormedTests.{IsWellFormedSource, IsWellFormedProgram};
ghost use Rattle.lw_litmus.specs.WellScopedTests.{IsWellScopedSource, IsWellScopedProgram};

/// States that a well-formed test is well-scoped: what laws say of all well-scoped tests, they say of all tests that are read.
pub fn well_formed_tests_are_well_scoped()
    ensures source { (test : SourceTest) → IsWellFormedSource test → IsWellScopedSource test }
    ensures x86 { (test : X86Test) → IsWellFormedProgram test → IsWellScopedProgram test }
{}
