//! What is written is read back as the same.
ghost use Rattle.rare_reread.specs.Reread.{LinearIsReadBack, SortIsReadBack};
ghost use Rattle.rare_reread.specs.Terms.{TermIsReadBack};
ghost use Rattle.rare_reread.specs.SpellingLaws.{GapsMayStandBefore, TextsAreJoined};

/// Texts of expressions, one behind the other, are the text of all of them, and a gap may stand before
/// an expression.
pub fn texts_are_joined()
    ensures joined { TextsAreJoined }
    ensures spaced { GapsMayStandBefore }
{}

/// What is written of a linear expression over the widths of a scope is read back as the expression.
pub fn linear_texts_are_read_back()
    ensures { LinearIsReadBack }
{}

/// What is written of a sort over the names of a scope is read back as the sort, where it is one of the
/// declarations.
pub fn sort_texts_are_read_back()
    ensures { SortIsReadBack }
{}

/// What is written of a term that is kept, over the names of a scope in which each shared part has its
/// name, is read back as the term.
pub fn term_texts_are_read_back()
    ensures { TermIsReadBack }
{}
