//! The maximum lengths of threads.
ghost use Rattle.std.specs.Prelude.{◌≡◌};
ghost use Rattle.lw_litmus.specs.Limits.{most_statements, most_instructions};

/// The maximum number of statements of a thread of a source test.
pub const MAX_STATEMENTS: usize = 16;

/// The maximum number of instructions of a thread of an x86 test.
pub const MAX_INSTRUCTIONS: usize = 32;

/// States that each constant is the number that the definitions name.
pub fn the_constants_are_the_limits()
    ensures statements { MAX_STATEMENTS ≡ most_statements }
    ensures instructions { MAX_INSTRUCTIONS ≡ most_instructions }
{}
