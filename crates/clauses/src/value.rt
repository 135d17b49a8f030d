// What a variable, or a literal, is under a valuation. The three have names of
// their own, which an `Option<bool>` would not give them.
#[derive(Clone, Copy, Debug, PartialEq)]
pub enum Value {
    True,
    False,
    Unset,
}
