// A literal is a variable with a sign: v is true where the variable is, -v where
// the variable is false. Any 32-bit number may be asked about.
ghost use Rattle.std.specs.Prelude.{◌≡◌, neg_ℤ, if◌then◌else◌, Some, None, unsigned_abs};
ghost use Rattle.clauses.specs.Literals.{names, same_literal, lowest_number};

// The variable that a literal names, if it is one of 1 to n.
pub fn variable(literal: i32, n: u32) -> Option<u32>
    ensures value { result ≡ (if names n literal then Some (unsigned_abs literal) else None) }
{
    let size = literal.unsigned_abs();
    (1..=n).contains(&size).then_some(size)
}

// The literal that says the contrary. The lowest 32-bit number has none.
pub fn opposite(literal: i32) -> Option<i32>
    ensures value { result ≡ (if same_literal literal lowest_number then None else Some (neg_ℤ literal)) }
{
    literal.checked_neg()
}
