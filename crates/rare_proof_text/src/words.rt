//! The words of commands and of rules.
ghost use Rattle.std.specs.Prelude.{◌≡◌};
ghost use Rattle.rare_scope.specs.Entries.{entry};
ghost use Rattle.rare_proof_text.specs.ProofText.{proof_words, rule_words};

use rare_scope::entry_at;

/// The word of a command of a proof.
#[derive(Clone, Copy, Debug, PartialEq, Eq)]
pub enum ProofWord {
    DefineFun,
    Step,
    Conclude,
}

/// The word of a rule of steps.
#[derive(Clone, Copy, Debug, PartialEq, Eq)]
pub enum RuleWord {
    Refl,
    Cong,
    Trans,
    Evaluate,
    /// An instance of a rule of the book, which its arguments name.
    RareRewrite,
}

const PROOF_WORDS: [(&str, ProofWord); 3] = [
    ("define-fun", ProofWord::DefineFun),
    ("step", ProofWord::Step),
    ("conclude", ProofWord::Conclude),
];

const RULE_WORDS: [(&str, RuleWord); 5] = [
    ("refl", RuleWord::Refl),
    ("cong", RuleWord::Cong),
    ("trans", RuleWord::Trans),
    ("evaluate", RuleWord::Evaluate),
    ("rare_rewrite", RuleWord::RareRewrite),
];

/// The command with this word.
pub(crate) fn word_of(text: &[u8]) -> Option<ProofWord>
    ensures { result ≡ entry proof_words text.now }
{
    entry_at(&PROOF_WORDS, text)
}

/// The rule with this word.
pub(crate) fn rule_of(text: &[u8]) -> Option<RuleWord>
    ensures { result ≡ entry rule_words text.now }
{
    entry_at(&RULE_WORDS, text)
}
