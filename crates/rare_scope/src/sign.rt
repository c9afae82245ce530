//! The operators of linear expressions.
ghost use Rattle.std.specs.Prelude.{◌≡◌, map};
ghost use Rattle.rare_scope.specs.Entries.{entry};
ghost use Rattle.rare_scope.specs.LinearText.{signs};

/// The operator of a linear expression.
#[derive(Clone, Copy, Debug, PartialEq, Eq)]
pub enum Sign {
    Plus,
    Minus,
    Times,
}

const SIGNS: [(&str, Sign); 3] = [("+", Sign::Plus), ("-", Sign::Minus), ("*", Sign::Times)];

/// The entry of a table at a word: the first counts.
pub fn entry_at<A: Copy>(table: &[(&str, A)], word: &[u8]) -> Option<A>
    ensures { result ≡ entry (map (λ row. (row.0.now, row.1)) table.now) word.now }
{
    for (text, meaning) in table {
        if word == text.as_bytes() {
            return Some(*meaning);
        }
    }
    None
}

/// The sign with these bytes.
pub fn sign_of(word: &[u8]) -> Option<Sign>
    ensures { result ≡ entry signs word.now }
{
    entry_at(&SIGNS, word)
}
