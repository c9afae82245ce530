//! The words of operators, found by the operator.
ghost use Rattle.std.specs.Prelude.{◌≡◌, map};
ghost use Rattle.rare_sort.specs.Sameness.{head_eq};
ghost use Rattle.rare_term_printing.specs.OperatorTexts.{indexed_word, is_use_of, operator_word, word_with};

use rare_operators::{IndexedWord, WordUse};
use rare_term::{Head, is_same_head};

const OPERATOR_WORDS: [(&str, WordUse); 51] = [
    ("true", WordUse::Constant(Head::True)),
    ("false", WordUse::Constant(Head::False)),
    ("not", WordUse::Plain(Head::Not)),
    ("=>", WordUse::Plain(Head::Implies)),
    ("xor", WordUse::Plain(Head::Xor)),
    ("and", WordUse::Plain(Head::And)),
    ("or", WordUse::Plain(Head::Or)),
    ("=", WordUse::Plain(Head::Equal)),
    ("distinct", WordUse::Plain(Head::Distinct)),
    ("ite", WordUse::Plain(Head::Ite)),
    ("-", WordUse::Difference),
    ("+", WordUse::Plain(Head::Add)),
    ("*", WordUse::Plain(Head::Mul)),
    ("div", WordUse::Plain(Head::Div)),
    ("mod", WordUse::Plain(Head::Mod)),
    ("abs", WordUse::Plain(Head::Abs)),
    ("<=", WordUse::Plain(Head::Le)),
    ("<", WordUse::Plain(Head::Lt)),
    (">=", WordUse::Plain(Head::Ge)),
    (">", WordUse::Plain(Head::Gt)),
    ("select", WordUse::Plain(Head::Select)),
    ("store", WordUse::Plain(Head::Store)),
    ("bvnot", WordUse::Plain(Head::BvNot)),
    ("bvneg", WordUse::Plain(Head::BvNeg)),
    ("bvadd", WordUse::Plain(Head::BvAdd)),
    ("bvmul", WordUse::Plain(Head::BvMul)),
    ("bvand", WordUse::Plain(Head::BvAnd)),
    ("bvor", WordUse::Plain(Head::BvOr)),
    ("bvxor", WordUse::Plain(Head::BvXor)),
    ("bvsub", WordUse::Plain(Head::BvSub)),
    ("bvudiv", WordUse::Plain(Head::BvUdiv)),
    ("bvurem", WordUse::Plain(Head::BvUrem)),
    ("bvsdiv", WordUse::Plain(Head::BvSdiv)),
    ("bvsrem", WordUse::Plain(Head::BvSrem)),
    ("bvsmod", WordUse::Plain(Head::BvSmod)),
    ("bvshl", WordUse::Plain(Head::BvShl)),
    ("bvlshr", WordUse::Plain(Head::BvLshr)),
    ("bvashr", WordUse::Plain(Head::BvAshr)),
    ("bvnand", WordUse::Plain(Head::BvNand)),
    ("bvnor", WordUse::Plain(Head::BvNor)),
    ("bvxnor", WordUse::Plain(Head::BvXnor)),
    ("bvult", WordUse::Plain(Head::BvUlt)),
    ("bvule", WordUse::Plain(Head::BvUle)),
    ("bvugt", WordUse::Plain(Head::BvUgt)),
    ("bvuge", WordUse::Plain(Head::BvUge)),
    ("bvslt", WordUse::Plain(Head::BvSlt)),
    ("bvsle", WordUse::Plain(Head::BvSle)),
    ("bvsgt", WordUse::Plain(Head::BvSgt)),
    ("bvsge", WordUse::Plain(Head::BvSge)),
    ("bvcomp", WordUse::Plain(Head::BvComp)),
    ("concat", WordUse::Plain(Head::Concat)),
];

const INDEXED_WORDS: [(&str, IndexedWord); 6] = [
    (
        "extract",
        IndexedWord {
            head: Head::Extract,
            indices: 2,
        },
    ),
    (
        "zero_extend",
        IndexedWord {
            head: Head::ZeroExtend,
            indices: 1,
        },
    ),
    (
        "sign_extend",
        IndexedWord {
            head: Head::SignExtend,
            indices: 1,
        },
    ),
    (
        "rotate_left",
        IndexedWord {
            head: Head::RotateLeft,
            indices: 1,
        },
    ),
    (
        "rotate_right",
        IndexedWord {
            head: Head::RotateRight,
            indices: 1,
        },
    ),
    (
        "repeat",
        IndexedWord {
            head: Head::Repeat,
            indices: 1,
        },
    ),
];

// The test of sameness that definitions use.
fn is_same_operator(a: Head, b: Head) -> bool
    ensures { result ≡ head_eq a b }
{
    is_same_head(a, b)
}

// Whether a word is used for this operator.
fn is_use_of(head: Head, used: WordUse) -> bool
    ensures { result ≡ is_use_of head used }
{
    match used {
        WordUse::Constant(operator) => is_same_operator(head, operator),
        WordUse::Difference => {
            is_same_operator(head, Head::Neg) || is_same_operator(head, Head::Minus)
        }
        WordUse::Plain(operator) => is_same_operator(head, operator),
    }
}

// The first word of a table that is used for this operator; empty where there is none.
fn word_in(table: &[(&'static str, WordUse)], head: Head) -> &'static [u8]
    ensures { result.now ≡ word_with (is_use_of head) (map (λ row. (row.0.now, row.1)) table.now) }
{
    for (word, used) in table {
        if is_use_of(head, *used) {
            return word.as_bytes();
        }
    }
    b""
}

// The same of a table of words with indices.
fn indexed_word_in(table: &[(&'static str, IndexedWord)], head: Head) -> &'static [u8]
    ensures { result.now ≡ word_with (λ i. head_eq head i.head)
        (map (λ row. (row.0.now, row.1)) table.now) }
{
    for (word, used) in table {
        if is_same_operator(head, used.head) {
            return word.as_bytes();
        }
    }
    b""
}

/// The word of an operator without indices; empty where it has none.
pub fn operator_word(head: Head) -> &'static [u8]
    ensures { result.now ≡ operator_word head }
{
    word_in(&OPERATOR_WORDS, head)
}

/// The word of an operator with indices; empty where it has none.
pub fn indexed_word(head: Head) -> &'static [u8]
    ensures { result.now ≡ indexed_word head }
{
    indexed_word_in(&INDEXED_WORDS, head)
}
