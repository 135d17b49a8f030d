// The limits of the subject, for all crates above.
#![tactic(auto)]

ghost use Rattle.std.specs.Prelude.{◌≡◌};
ghost use Rattle.limits.specs.Limits.{most_variables, lengths, most_lines, most_steps, most_bytes, most_clauses, most_literals, program_bytes, program_places, program_steps};

// Variables that a session can have.
pub const MOST_VARIABLES: u32 = 64;

// A line has from 0 to 64 literals.
pub const LENGTHS: usize = 65;

// Lines of a book, and so the most that a row counts; places of a session's
// book.
pub const MOST_LINES: usize = 65_536;

// Steps of one run.
pub const MOST_STEPS: u32 = 1_000_000;

// Bytes in a clause text.
pub const MOST_BYTES: usize = 1_048_576;

// Clauses that a problem line may announce.
pub const MOST_CLAUSES: u32 = 65_536;

// Literals in one clause, repeats counted.
pub const MOST_LITERALS: usize = 128;

// Bytes that the program takes.
pub const PROGRAM_BYTES: usize = 65_536;

// Places of its book.
pub const PROGRAM_PLACES: usize = 1_000;

// Steps of its run.
pub const PROGRAM_STEPS: u32 = 100_000;

// The code's numbers are those of the definitions. The function does nothing.
pub fn limits_hold()
    ensures variables { MOST_VARIABLES ≡ most_variables }
    ensures lengths { LENGTHS ≡ lengths }
    ensures lines { MOST_LINES ≡ most_lines }
    ensures steps { MOST_STEPS ≡ most_steps }
    ensures bytes { MOST_BYTES ≡ most_bytes }
    ensures clauses { MOST_CLAUSES ≡ most_clauses }
    ensures literals { MOST_LITERALS ≡ most_literals }
    ensures program_bytes { PROGRAM_BYTES ≡ program_bytes }
    ensures program_places { PROGRAM_PLACES ≡ program_places }
    ensures program_steps { PROGRAM_STEPS ≡ program_steps }
{}
