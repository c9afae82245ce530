//! Expressions: what they are, how their parts are read, and the expressions that own their parts.
ghost use Rattle.std.specs.Prelude.{◌≡◌, ◌<◌, [], length, slice_get, Some};
ghost use Rattle.rare_sexpr.specs.Tree.{items_of, text_of, kind_of, place_of};
ghost use Rattle.rare_sexpr.specs.Atomic.{kind_of_atom};

use rare_base::{Place, Text};
use rare_list::Sequence;

/// What an expression is (SMT-LIB 2.6, sections on the lexicon and on s-expressions).
#[derive(Clone, Copy, Debug, PartialEq, Eq)]
pub enum Kind {
    /// A simple symbol: letters, digits and `~ ! @ $ % ^ & * _ - + = < > . ? /`, no digit first. Or a
    /// quoted symbol: any bytes but a bar and a backslash, between bars.
    Symbol,
    /// A colon and one or more symbol bytes.
    Keyword,
    /// One or more digits.
    Numeral,
    /// Digits, a point, digits.
    Decimal,
    /// `#b` and one or more binary digits.
    Binary,
    /// `#x` and one or more hexadecimal digits.
    Hex,
    /// A string: any bytes between quotes, where two quotes stand for one.
    Quoted,
    /// Expressions between parentheses.
    List,
}

/// What an atom is: a kind other than a list.
#[derive(Clone, Copy, Debug, PartialEq, Eq)]
pub enum AtomKind {
    Symbol,
    Keyword,
    Numeral,
    Decimal,
    Binary,
    Hex,
    Quoted,
}

impl AtomKind {
    /// The same as the kind of an expression.
    pub fn kind(self) -> Kind
        ensures { result ≡ kind_of_atom self }
    {
        match self {
            AtomKind::Symbol => Kind::Symbol,
            AtomKind::Keyword => Kind::Keyword,
            AtomKind::Numeral => Kind::Numeral,
            AtomKind::Decimal => Kind::Decimal,
            AtomKind::Binary => Kind::Binary,
            AtomKind::Hex => Kind::Hex,
            AtomKind::Quoted => Kind::Quoted,
        }
    }
}

/// An expression as it was read, whatever holds its parts.
pub trait Expr {
    ghost use Rattle.rare_sexpr.specs.declared.tree.Sexpr.{Sexpr};
    ghost use Rattle.rare_sexpr.specs.declared.tree.Kind.TheVariants as kind;

    /// The plain tree of its parts.
    ghost tree: { Self → Sexpr };

    /// The place of its first byte.
    fn place(&self) -> Place
        ensures { result ≡ place_of (tree self.now) };

    /// What it is.
    fn kind(&self) -> Kind
        ensures { result ≡ kind_of (tree self.now) };

    /// The bytes of an atom, without the bars of a quoted symbol, the quotes of a string, the colon of
    /// a keyword and the `#b` or `#x` of a literal; in a string `""` is one `"`. A list has none.
    fn text(&self) -> &[u8]
        ensures { result.now ≡ text_of (tree self.now) };

    /// The number of items of a list. An atom has none.
    fn len(&self) -> usize
        ensures { result ≡ length (items_of (tree self.now)) };

    /// Item `k` of a list, counted from 0.
    fn item(&self, k: usize) -> &Self
        requires { k < length (items_of (tree self.now)) }
        ensures { slice_get (items_of (tree self.now)) k ≡ Some (tree result.now) };

    /// A list has no text.
    ghost list_has_no_text: { (e : Self) → kind_of (tree e) ≡ kind.List → text_of (tree e) ≡ [] };

    /// An atom has no items.
    ghost atom_has_no_items: { (e : Self) → ¬ (kind_of (tree e) ≡ kind.List) → items_of (tree e) ≡ [] };
}

/// An expression that owns its parts.
#[derive(Debug, Drop)]
pub enum Sexpr {
    /// An atom, with the place of its first byte.
    Atom {
        place: Place,
        kind: AtomKind,
        text: Text,
    },
    /// A list, with the place of its parenthesis.
    List {
        place: Place,
        items: Sequence<Sexpr>,
    },
}

/// A list of expressions.
pub type Sexprs = Sequence<Sexpr>;

#[tactic(auto, unfolding(crate::specs::Tree::items_of, crate::specs::Tree::text_of, crate::specs::Tree::kind_of, crate::specs::Tree::place_of))]
impl Expr for Sexpr {
    ghost use Rattle.rare_sexpr.specs.TreeLaws.{list_has_no_text, atom_has_no_items};

    ghost tree = { λ s. s };

    ghost list_has_no_text = { list_has_no_text };

    ghost atom_has_no_items = { atom_has_no_items };

    fn place(&self) -> Place {
        match self {
            Sexpr::Atom { place, .. } | Sexpr::List { place, .. } => *place,
        }
    }

    fn kind(&self) -> Kind {
        match self {
            Sexpr::Atom { kind, .. } => kind.kind(),
            Sexpr::List { .. } => Kind::List,
        }
    }

    fn text(&self) -> &[u8] {
        match self {
            Sexpr::Atom { text, .. } => text.bytes(),
            Sexpr::List { .. } => &[],
        }
    }

    fn len(&self) -> usize {
        match self {
            Sexpr::Atom { .. } => 0,
            Sexpr::List { items, .. } => items.len(),
        }
    }

    fn item(&self, k: usize) -> &Sexpr {
        match self {
            Sexpr::Atom { .. } => unreachable!(),
            Sexpr::List { items, .. } => items.get(k),
        }
    }
}
