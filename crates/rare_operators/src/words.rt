//! The words of operators.
ghost use Rattle.std.specs.Prelude.{◌≡◌, IfSome};
ghost use Rattle.rare_scope.specs.Entries.{entry};
ghost use Rattle.rare_operators.specs.OperatorWords.{indexed_words, operator_of_word};
ghost use Rattle.rare_operators.specs.Plain.{IsPlain, IsPlainUse};

use rare_scope::entry_at;
use rare_term::Head;

/// How a word is used as an operator.
#[derive(Clone, Copy, Debug, PartialEq, Eq)]
pub enum WordUse {
    /// Without arguments.
    Constant(Head),
    /// `-`, which is `Neg` with one argument and `Minus` with more.
    Difference,
    /// With arguments.
    Plain(Head),
}

/// An operator that stands behind `_`, and how many indices it has.
#[derive(Clone, Copy, Debug, PartialEq, Eq)]
pub struct IndexedWord {
    pub head: Head,
    pub indices: usize,
}

const OPERATOR_WORDS: [(&str, WordUse); 51] = [
    ("true", WordUse::Constant(Head::True)),
    ("false", WordUse::Constant(Head::False)),
    ("not", WordUse::Plain(Head::Not)),
    ("=>", WordUse::Plain(Head::Implies)),
    ("xor", WordUse::Plain(Head::Xor)),
    ("and", WordUse::Plain(Head::And)),
    ("or", WordUse::Plain(Head::Or)),
    ("=", WordUse::Plain(Head::Equal)),
    ("distinct", WordUse::Plain(Head::Distinct)),
    ("ite", WordUse::Plain(Head::Ite)),
    ("-", WordUse::Difference),
    ("+", WordUse::Plain(Head::Add)),
    ("*", WordUse::Plain(Head::Mul)),
    ("div", WordUse::Plain(Head::Div)),
    ("mod", WordUse::Plain(Head::Mod)),
    ("abs", WordUse::Plain(Head::Abs)),
    ("<=", WordUse::Plain(Head::Le)),
    ("<", WordUse::Plain(Head::Lt)),
    (">=", WordUse::Plain(Head::Ge)),
    (">", WordUse::Plain(Head::Gt)),
    ("select", WordUse::Plain(Head::Select)),
    ("store", WordUse::Plain(Head::Store)),
    ("bvnot", WordUse::Plain(Head::BvNot)),
    ("bvneg", WordUse::Plain(Head::BvNeg)),
    ("bvadd", WordUse::Plain(Head::BvAdd)),
    ("bvmul", WordUse::Plain(Head::BvMul)),
    ("bvand", WordUse::Plain(Head::BvAnd)),
    ("bvor", WordUse::Plain(Head::BvOr)),
    ("bvxor", WordUse::Plain(Head::BvXor)),
    ("bvsub", WordUse::Plain(Head::BvSub)),
    ("bvudiv", WordUse::Plain(Head::BvUdiv)),
    ("bvurem", WordUse::Plain(Head::BvUrem)),
    ("bvsdiv", WordUse::Plain(Head::BvSdiv)),
    ("bvsrem", WordUse::Plain(Head::BvSrem)),
    ("bvsmod", WordUse::Plain(Head::BvSmod)),
    ("bvshl", WordUse::Plain(Head::BvShl)),
    ("bvlshr", WordUse::Plain(Head::BvLshr)),
    ("bvashr", WordUse::Plain(Head::BvAshr)),
    ("bvnand", WordUse::Plain(Head::BvNand)),
    ("bvnor", WordUse::Plain(Head::BvNor)),
    ("bvxnor", WordUse::Plain(Head::BvXnor)),
    ("bvult", WordUse::Plain(Head::BvUlt)),
    ("bvule", WordUse::Plain(Head::BvUle)),
    ("bvugt", WordUse::Plain(Head::BvUgt)),
    ("bvuge", WordUse::Plain(Head::BvUge)),
    ("bvslt", WordUse::Plain(Head::BvSlt)),
    ("bvsle", WordUse::Plain(Head::BvSle)),
    ("bvsgt", WordUse::Plain(Head::BvSgt)),
    ("bvsge", WordUse::Plain(Head::BvSge)),
    ("bvcomp", WordUse::Plain(Head::BvComp)),
    ("concat", WordUse::Plain(Head::Concat)),
];

const INDEXED_WORDS: [(&str, IndexedWord); 6] = [
    (
        "extract",
        IndexedWord {
            head: Head::Extract,
            indices: 2,
        },
    ),
    (
        "zero_extend",
        IndexedWord {
            head: Head::ZeroExtend,
            indices: 1,
        },
    ),
    (
        "sign_extend",
        IndexedWord {
            head: Head::SignExtend,
            indices: 1,
        },
    ),
    (
        "rotate_left",
        IndexedWord {
            head: Head::RotateLeft,
            indices: 1,
        },
    ),
    (
        "rotate_right",
        IndexedWord {
            head: Head::RotateRight,
            indices: 1,
        },
    ),
    (
        "repeat",
        IndexedWord {
            head: Head::Repeat,
            indices: 1,
        },
    ),
];

/// How a word is used as an operator, or none where it is no operator's.
#[tactic(auto, using(crate::proofs::WordLemmas::word_plain))]
pub fn word_use(word: &[u8]) -> Option<WordUse>
    ensures uses { result ≡ operator_of_word word.now }
    ensures plain { IfSome result IsPlainUse }
{
    entry_at(&OPERATOR_WORDS, word)
}

/// The operator that a word is behind `_`, or none where it is no such word.
#[tactic(auto, using(crate::proofs::WordLemmas::indexed_plain))]
pub fn indexed_word(word: &[u8]) -> Option<IndexedWord>
    ensures uses { result ≡ entry indexed_words word.now }
    ensures plain { IfSome result (λ o. IsPlain o.head) }
{
    entry_at(&INDEXED_WORDS, word)
}
