// One variable, the first n, how many, the lowest and the only one.
ghost use Rattle.std.specs.Prelude.{◌≡◌, suc, ◌≤◌, length, nat_eq, nat_lt};
ghost use Rattle.words.specs.Bits.{width, BitsWhere, variables, in_word, Named, first, sole};

// Bits in a word, and so the most variables that one can tell apart.
pub const WIDTH: u32 = 64;

// The word of variable v alone; no variable where v is 0 or above 64.
#[tactic(auto, using(crate::proofs::Bits::one_words))]
pub fn one(v: u32) -> u64
    ensures bits { BitsWhere (λ k. nat_eq (suc k) v) result }
{
    if v == 0 || v > WIDTH {
        return 0;
    }
    1u64 << (v - 1)
}

// The word of the variables 1 to n; of all 64 where n is above that.
#[tactic(auto, using(crate::proofs::Bits::mask_words))]
pub fn mask(n: u32) -> u64
    ensures bits { BitsWhere (λ k. nat_lt k n) result }
{
    if n >= WIDTH {
        return u64::MAX;
    }
    (1u64 << n) - 1
}

// Whether v is a variable of the word.
#[tactic(auto, using(crate::proofs::Bits::common_bit))]
pub fn has(word: u64, v: u32) -> bool
    ensures value { result ≡ in_word v word }
{
    word & one(v) != 0
}

// How many variables the word has.
#[tactic(auto, using(crate::proofs::Variables::ones_variables))]
pub fn count(word: u64) -> u32
    ensures value { result ≡ length (variables word) }
    ensures bound { result ≤ width }
{
    word.count_ones()
}

// The lowest variable of the word.
#[tactic(auto, using(crate::proofs::Variables::lowest_variable))]
pub fn lowest(word: u64) -> Option<u32>
    ensures value { result ≡ first (variables word) }
    ensures named { Named result }
{
    (word != 0).then_some(word.trailing_zeros() + 1)
}

// The variable of a word that has just one.
#[tactic(auto, using(crate::proofs::Variables::sole_word))]
pub fn only(word: u64) -> Option<u32>
    ensures value { result ≡ sole (variables word) }
{
    let v = lowest(word)?;
    (word == one(v)).then_some(v)
}
