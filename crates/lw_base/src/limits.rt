//! The limits of a test, each defined once.
ghost use Rattle.std.specs.Prelude.{◌≡◌};
ghost use Rattle.lw_base.specs.Limits.{most_threads, most_locations, registers, most_name_bytes, most_test_name_bytes, most_text_bytes, most_rows, most_nodes};

/// The maximum number of threads of a test, and the number of processors.
pub const MAX_THREADS: usize = 4;

/// The maximum number of locations of a test.
pub const MAX_LOCATIONS: usize = 8;

/// The number of registers of a thread.
pub const REGISTERS: usize = 6;

/// The maximum length of the name of a location or label, in bytes.
pub const MAX_NAME_BYTES: usize = 32;

/// The maximum length of a test's name, in bytes.
pub const MAX_TEST_NAME_BYTES: usize = 128;

/// The maximum length of a test's text, in bytes.
pub const MAX_TEXT_BYTES: usize = 65536;

/// The maximum number of rows of a test.
pub const MAX_ROWS: usize = 64;

/// The maximum number of atoms and connectives of a test's condition.
pub const MAX_NODES: usize = 256;

/// States that each constant is the number that the definitions name.
pub fn the_constants_are_the_limits()
    ensures threads { MAX_THREADS ≡ most_threads }
    ensures locations { MAX_LOCATIONS ≡ most_locations }
    ensures of_a_thread { REGISTERS ≡ registers }
    ensures name { MAX_NAME_BYTES ≡ most_name_bytes }
    ensures test_name { MAX_TEST_NAME_BYTES ≡ most_test_name_bytes }
    ensures text { MAX_TEXT_BYTES ≡ most_text_bytes }
    ensures rows { MAX_ROWS ≡ most_rows }
    ensures nodes { MAX_NODES ≡ most_nodes }
{}
