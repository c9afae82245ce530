//! The scope of a problem that was read is one over which what is written is read back.
ghost use Rattle.rare_problem_reread.specs.ReadNames.{EachHasAName, NamesAreReadable, NamesDiffer, ScopesAreReadable};

/// The names of a problem that was read differ; each can stand between bars, and is neither a word of
/// the theories nor a reserved word.
pub fn read_names_are_readable()
    ensures readable { NamesAreReadable }
    ensures differ { NamesDiffer }
{}

/// A scope that holds the names of a problem that was read is readable: its sorts, symbols and widths
/// are numbered in the order of their names, too.
pub fn read_scopes_are_readable()
    ensures { ScopesAreReadable }
{}

/// In such a scope each sort, each symbol and each width that the problem declares has a name.
pub fn read_declarations_have_names()
    ensures { EachHasAName }
{}
