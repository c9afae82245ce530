//! Which names a text may not declare.
ghost use Rattle.std.specs.Prelude.{◌≡◌, map, bytes_eq};
ghost use Rattle.rare_scope.specs.Reserved.{is_among, is_reserved, is_theory_word};

/// The words of the theories and of sorts, and `bv`, which begins literals: no text may declare them
/// (SMT-LIB 2.6, theories Core, Ints, ArraysEx and FixedSizeBitVectors, logic QF_BV).
pub const THEORY_WORDS: [&str; 56] = [
    "true", "false", "not", "=>", "xor", "and", "or", "=", "distinct", "ite", "-", "+", "*", "div",
    "mod", "abs", "<=", "<", ">=", ">", "select", "store", "bvnot", "bvneg", "bvadd", "bvmul",
    "bvand", "bvor", "bvxor", "bvsub", "bvudiv", "bvurem", "bvsdiv", "bvsrem", "bvsmod", "bvshl",
    "bvlshr", "bvashr", "bvnand", "bvnor", "bvxnor", "bvult", "bvule", "bvugt", "bvuge", "bvslt",
    "bvsle", "bvsgt", "bvsge", "bvcomp", "concat", "Bool", "Int", "Array", "BitVec", "bv",
];

/// The reserved words of SMT-LIB 2.6 that stand in terms: no text may declare them, nor a name that
/// begins with `@` or `.`. The names of commands, and `NUMERAL` and its like, may be declared.
pub const RESERVED_WORDS: [&str; 8] = ["_", "!", "as", "let", "exists", "forall", "match", "par"];

/// Whether the bytes are those of the word.
pub fn is_word(bytes: &[u8], word: &str) -> bool
    ensures { result ≡ bytes_eq bytes.now word.now }
{
    bytes == word.as_bytes()
}

fn is_one_of(words: &[&str], name: &[u8]) -> bool
    ensures { result ≡ is_among (map (λ word. word.now) words.now) name.now }
{
    for word in words {
        if is_word(name, word) {
            return true;
        }
    }
    false
}

/// Whether the name is a word of the theories or of sorts.
pub fn is_theory_word_name(name: &[u8]) -> bool
    ensures { result ≡ is_theory_word name.now }
{
    is_one_of(&THEORY_WORDS, name)
}

/// Whether the name is reserved for terms.
pub fn is_reserved_name(name: &[u8]) -> bool
    ensures { result ≡ is_reserved name.now }
{
    matches!(name, [b'@' | b'.', ..]) || is_one_of(&RESERVED_WORDS, name)
}
