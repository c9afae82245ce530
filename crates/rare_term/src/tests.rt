//! Named rows of terms that are made and of terms that are refused, each at its border.
ghost use Rattle.std.specs.Prelude.{◌≡◌, ◌<◌, ℕ, length, IfOk, IsTrue};
ghost use Rattle.rare_linear.specs.Linears.{NamesBelow};
ghost use Rattle.rare_sort.specs.DeclaredSorts.{AreNamed, IsSymbol};
ghost use Rattle.rare_sort.specs.Families.{family};
ghost use Rattle.rare_sort.specs.Ids.{AreIds};
ghost use Rattle.rare_term.specs.Literals.{IsGiven};
ghost use Rattle.rare_term.specs.State.{no_terms};
ghost use Rattle.rare_term.specs.inner.Ready.{IsReady};

use crate::{Head, Ids, Plain, Sort, TermError, TermId, Terms, is_same_sort, kept_terms_are_terms};
use rare_linear::{Constraint, Linear, LinearError, Linears};
use rare_list::{Boxed, Sequence};
use std::alloc::{AllocError, Global};
use std::test::Fail;

/// The constant, and the coefficients of the width names n and m.
type Numbers = (i128, i128, i128);

/// What a row says, the operator with its indices and the rows of its arguments, and the answer.
type Row = (
    &'static str,
    Head,
    &'static [Numbers],
    &'static [&'static str],
    Result<(), TermError>,
);

/// A term by the words of its row.
#[derive(Debug, Drop)]
struct Named {
    name: &'static str,
    id: TermId,
}

/// Terms over the width names n, which is at least 2, and m, and over two symbols: a function from
/// Bool to Bool, and an array from Int to Bool.
#[derive(Debug, Drop)]
struct Bench<T> {
    alloc: Global,
    terms: T,
    /// The last id.
    last: usize,
    made: Sequence<Named>,
}

#[tactic(auto, using(rare_linear::proofs::Names::names_below))]
fn multiple(alloc: Global, name: u32, k: i128) -> Result<Linear, LinearError>
    requires { name < 2 }
    ensures { IfOk result (λ l. NamesBelow 2 l.parts) }
{
    Linear::name(alloc, name)
        .map_err(|_| LinearError::Memory)?
        .scale(k)
}

fn expression(alloc: Global, numbers: Numbers) -> Result<Linear, LinearError>
    ensures { IfOk result (λ l. NamesBelow 2 l.parts) }
{
    let first = multiple(alloc, 0, numbers.1)?;
    let second = multiple(alloc, 1, numbers.2)?;
    let names = first.add(&second)?;
    let sum = names.add(&Linear::constant(alloc, numbers.0))?;
    Ok(sum)
}

fn expressions(alloc: Global, rows: &[Numbers]) -> Result<Linears, LinearError>
    ensures { IfOk result (λ es. AreNamed 2 es) }
{
    let mut all = Linears::new(alloc);
    'rows: for numbers in rows {
        let next = expression(alloc, *numbers)?;
        let Ok(()) = all.push(next) else {
            return Err(LinearError::Memory);
        };
    }
    Ok(all)
}

/// Whether the operator is none of rules alone, its symbol is declared, and the width of a literal
/// of given value is a number.
fn is_askable(head: Head, indices: &[Linear]) -> bool
    ensures symbol { IsTrue result → IsSymbol 2 (family head) }
    ensures bits { IsTrue result → IsGiven head indices.now }
{
    match head {
        Head::Free(k) => k < 2,
        Head::Param(_) | Head::Hole => false,
        Head::Bits(_) => match indices {
            [width] => width.parts().is_empty(),
            _ => false,
        },
        _ => true,
    }
}

fn are_up_to(last: usize, args: &[TermId]) -> bool
    ensures { IsTrue result → (n : ℕ) → last < n → AreIds n args.now }
{
    match args {
        [id, rest @ ..] => id.0 <= last && are_up_to(last, rest),
        [] => true,
    }
}

impl<T: Terms + Drop> Bench<T> {
    /// The answer of `make` where it may be called, and `Memory` otherwise.
    fn attempt(
        &mut self,
        head: Head,
        indices: &[Linear],
        args: &[TermId],
    ) -> Result<TermId, TermError>
        requires ready { IsReady (T.state self.old.terms) self.old.last }
        requires names { AreNamed 2 indices.now }
        ensures { IsReady (T.state self.new.terms) self.new.last }
    {
        if !is_askable(head, indices) || !are_up_to(self.last, args) {
            return Err(TermError::Memory);
        }
        let id = self.terms.make(head, indices, args)?;
        self.last = self.last.max(id.0);
        Ok(id)
    }

    /// The term of a row, by its words.
    fn id_of(&self, name: &str) -> Option<TermId> {
        for made in self.made.items() {
            if made.name == name {
                return Some(made.id);
            }
        }
        None
    }

    /// The answer to a row. A row whose arguments no row made is answered `Memory`.
    fn answer(&mut self, row: &Row) -> Result<(), TermError>
        requires { IsReady (T.state self.old.terms) self.old.last }
        ensures { IsReady (T.state self.new.terms) self.new.last }
    {
        let mut args = Ids::new(self.alloc);
        for name in row.3 {
            let Some(id) = self.id_of(name) else {
                return Err(TermError::Memory);
            };
            let Ok(()) = args.push(id) else {
                return Err(TermError::Memory);
            };
        }
        let Ok(indices) = expressions(self.alloc, row.2) else {
            return Err(TermError::Memory);
        };
        let id = self.attempt(row.1, indices.items(), args.items())?;
        let Ok(()) = self.made.push(Named { name: row.0, id }) else {
            return Err(TermError::Memory);
        };
        Ok(())
    }

    /// The first row that is answered otherwise.
    fn first_wrong(&mut self, rows: &[Row]) -> Option<&'static str>
        requires { IsReady (T.state self.old.terms) self.old.last }
        ensures { IsReady (T.state self.new.terms) self.new.last }
    {
        match rows {
            [row, rest @ ..] => {
                if self.answer(row) != row.4 {
                    return Some(row.0);
                }
                self.first_wrong(rest)
            }
            [] => None,
        }
    }

    /// The term under so many operators, of the same term once under `not` and twice under others.
    fn tower(&mut self, head: Head, from: TermId, times: usize) -> Result<TermId, TermError>
        requires { IsReady (T.state self.old.terms) self.old.last }
        ensures { IsReady (T.state self.new.terms) self.new.last }
    {
        if times == 0 {
            return Ok(from);
        }
        let id = match head {
            Head::Not => self.attempt(head, &[], &[from])?,
            _ => self.attempt(head, &[], &[from, from])?,
        };
        self.tower(head, id, times - 1)
    }

    /// Whether the tower over a row's term was made. It is known by this name.
    fn raised(&mut self, name: &'static str, head: Head, from: &str, times: usize) -> bool
        requires { IsReady (T.state self.old.terms) self.old.last }
        ensures { IsReady (T.state self.new.terms) self.new.last }
    {
        let Some(from) = self.id_of(from) else {
            return false;
        };
        match self.tower(head, from, times) {
            Ok(id) => self.made.push(Named { name, id }).is_ok(),
            Err(_) => false,
        }
    }

    fn head_of(&self, name: &str) -> Option<Head>
        requires { IsReady (T.state self.now.terms) self.now.last }
    {
        match self.id_of(name) {
            Some(id) if id.0 <= self.last => Some(self.terms.head(id)),
            _ => None,
        }
    }

    fn follows(&self, numbers: Numbers) -> Result<bool, LinearError>
        requires { IsReady (T.state self.now.terms) self.now.last }
    {
        let want = expression(self.alloc, numbers)?;
        Ok(self.terms.entailed(&want))
    }

    /// Whether the readers give what the row was made of, and this sort.
    fn is_read(&self, row: &Row, sort: &Sort) -> Result<bool, LinearError>
        requires { IsReady (T.state self.now.terms) self.now.last }
    {
        let Some(id) = self.id_of(row.0) else {
            return Ok(false);
        };
        if id.0 > self.last {
            return Ok(false);
        }
        let indices = expressions(self.alloc, row.2)?;
        if indices.len() != self.terms.index_count(id) || row.3.len() != self.terms.arg_count(id) {
            return Ok(false);
        }
        'indices: for (k, want) in indices.items().iter().enumerate() {
            if !self.terms.index(id, k).is_same(want) {
                return Ok(false);
            }
        }
        'args: for (k, want) in row.3.iter().enumerate() {
            if self.id_of(want) != Some(self.terms.arg(id, k)) {
                return Ok(false);
            }
        }
        Ok(self.terms.head(id) == row.1 && is_same_sort(self.terms.sort(id), sort))
    }

    /// The first row that the readers give otherwise, or with other bit vectors than of this width.
    fn first_misread(&self, rows: &[(Row, Numbers)]) -> Result<Option<&'static str>, LinearError>
        requires { IsReady (T.state self.now.terms) self.now.last }
    {
        for (row, width) in rows {
            let width = expression(self.alloc, *width)?;
            if !self.is_read(row, &Sort::BitVec(width))? {
                return Ok(Some(row.0));
            }
        }
        Ok(None)
    }

    fn state_laws(&self)
        requires { IsReady (T.state self.now.terms) self.now.last }
    {
        kept_terms_are_terms(&self.terms, self.last);
    }
}

/// The terms with their declarations and the row `true`.
fn ready<T: Terms + Drop>(alloc: Global, terms: T) -> Result<Bench<T>, Fail>
    requires { T.state terms ≡ no_terms }
    ensures { IfOk result (λ b. IsReady (T.state b.terms) b.last) }
{
    let mut terms = terms;
    terms.declare_sort();
    terms.declare_width()?;
    terms.declare_width()?;
    let array = Sort::Array(
        Boxed::new(alloc, Sort::Int)?,
        Boxed::new(alloc, Sort::Bool)?,
    );
    terms.declare_symbol(&[Sort::Bool], &Sort::Bool)?;
    terms.declare_symbol(&[], &array)?;
    let floor = expression(alloc, (-2, 1, 0))?;
    terms.assume(&Constraint { floor })?;
    let id = terms.make(Head::True, &[], &[])?;
    let mut made = Sequence::new(alloc);
    made.push(Named { name: "true", id })?;
    Ok(Bench {
        alloc,
        terms,
        last: id.0,
        made,
    })
}

const ZERO: Numbers = (0, 0, 0);

const ONE: Numbers = (1, 0, 0);

const N: Numbers = (0, 1, 0);

const M: Numbers = (0, 0, 1);

const MAX: i128 = i128::MAX;

const MADE: Result<(), TermError> = Ok(());

const MANY: Result<(), TermError> = Err(TermError::TooManyArgs);

const ILL: Result<(), TermError> = Err(TermError::IllSorted);

const DEEP: Result<(), TermError> = Err(TermError::TooDeep);

const LARGE: Result<(), TermError> = Err(TermError::TooLarge);

/// What the other rows are made of: x of width n, y of width m, a bit, a byte.
const TERMS: [Row; 9] = [
    ("1", Head::Numeral(1), &[], &[], MADE),
    ("f", Head::Free(0), &[], &["true"], MADE),
    ("array", Head::Free(1), &[], &[], MADE),
    ("x", Head::Literal, &[ZERO, N], &[], MADE),
    ("y", Head::Literal, &[ZERO, M], &[], MADE),
    ("bit", Head::Bits(1), &[ONE], &[], MADE),
    ("byte", Head::Bits(1), &[(8, 0, 0)], &[], MADE),
    ("x and a bit", Head::Concat, &[], &["x", "bit"], MADE),
    ("x extended", Head::ZeroExtend, &[ONE], &["x"], MADE),
];

/// Sorts and counts, one operator of each family at least.
const SORTS: [Row; 52] = [
    ("true of one", Head::True, &[], &["true"], ILL),
    ("not of an Int", Head::Not, &[], &["1"], ILL),
    ("not of two", Head::Not, &[], &["true", "true"], ILL),
    ("=> of one", Head::Implies, &[], &["true"], ILL),
    ("and of an Int", Head::And, &[], &["true", "1"], ILL),
    ("and of three", Head::And, &[], &["true", "true", "f"], MADE),
    (
        "and with an index",
        Head::And,
        &[ONE],
        &["true", "true"],
        ILL,
    ),
    ("= of two sorts", Head::Equal, &[], &["true", "1"], ILL),
    ("distinct of one", Head::Distinct, &[], &["1"], ILL),
    ("distinct", Head::Distinct, &[], &["1", "1"], MADE),
    ("ite of an Int", Head::Ite, &[], &["1", "1", "1"], ILL),
    (
        "ite of two sorts",
        Head::Ite,
        &[],
        &["true", "true", "1"],
        ILL,
    ),
    ("ite", Head::Ite, &[], &["true", "1", "1"], MADE),
    ("1 of one", Head::Numeral(1), &[], &["1"], ILL),
    ("negation of a Bool", Head::Neg, &[], &["true"], ILL),
    ("negation of two", Head::Neg, &[], &["1", "1"], ILL),
    ("minus of one", Head::Minus, &[], &["1"], ILL),
    ("+ of a Bool", Head::Add, &[], &["1", "true"], ILL),
    ("mod of three", Head::Mod, &[], &["1", "1", "1"], ILL),
    ("abs", Head::Abs, &[], &["1"], MADE),
    ("<= of Bools", Head::Le, &[], &["true", "true"], ILL),
    ("< of three", Head::Lt, &[], &["1", "1", "1"], MADE),
    ("select of an Int", Head::Select, &[], &["1", "1"], ILL),
    (
        "select at a Bool",
        Head::Select,
        &[],
        &["array", "true"],
        ILL,
    ),
    ("select", Head::Select, &[], &["array", "1"], MADE),
    (
        "store of an Int",
        Head::Store,
        &[],
        &["array", "1", "1"],
        ILL,
    ),
    (
        "store at a Bool",
        Head::Store,
        &[],
        &["array", "true", "true"],
        ILL,
    ),
    ("store", Head::Store, &[], &["array", "1", "true"], MADE),
    ("f of an Int", Head::Free(0), &[], &["1"], ILL),
    ("f of two", Head::Free(0), &[], &["true", "true"], ILL),
    ("array of one", Head::Free(1), &[], &["1"], ILL),
    ("bvnot of a Bool", Head::BvNot, &[], &["true"], ILL),
    ("bvneg of two", Head::BvNeg, &[], &["bit", "bit"], ILL),
    ("bvadd of one", Head::BvAdd, &[], &["bit"], ILL),
    (
        "bvadd of a bit and a byte",
        Head::BvAdd,
        &[],
        &["bit", "byte"],
        ILL,
    ),
    (
        "bvsub of three",
        Head::BvSub,
        &[],
        &["bit", "bit", "bit"],
        ILL,
    ),
    (
        "bvult of a bit and a byte",
        Head::BvUlt,
        &[],
        &["bit", "byte"],
        ILL,
    ),
    ("bvcomp of Ints", Head::BvComp, &[], &["1", "1"], ILL),
    ("bvcomp", Head::BvComp, &[], &["byte", "byte"], MADE),
    (
        "bvadd of what bvcomp gives",
        Head::BvAdd,
        &[],
        &["bvcomp", "bit"],
        MADE,
    ),
    ("concat of one", Head::Concat, &[], &["bit"], ILL),
    ("concat of a Bool", Head::Concat, &[], &["bit", "true"], ILL),
    (
        "extract with one index",
        Head::Extract,
        &[ZERO],
        &["byte"],
        ILL,
    ),
    (
        "extract of a Bool",
        Head::Extract,
        &[ZERO, ZERO],
        &["true"],
        ILL,
    ),
    (
        "zero_extend of an Int",
        Head::ZeroExtend,
        &[ZERO],
        &["1"],
        ILL,
    ),
    (
        "rotate_left of a Bool",
        Head::RotateLeft,
        &[ZERO],
        &["true"],
        ILL,
    ),
    ("repeat of a Bool", Head::Repeat, &[ONE], &["true"], ILL),
    ("bits of width 0", Head::Bits(0), &[ZERO], &[], ILL),
    ("literal of width 0", Head::Literal, &[ZERO, ZERO], &[], ILL),
    (
        "literal of width m - 1",
        Head::Literal,
        &[ZERO, (-1, 0, 1)],
        &[],
        ILL,
    ),
    (
        "literal of width n - 1",
        Head::Literal,
        &[ZERO, (-1, 1, 0)],
        &[],
        MADE,
    ),
    ("literal of one", Head::Literal, &[ZERO, ONE], &["bit"], ILL),
];

/// What is asked of widths, and widths that leave `i128`.
const WIDTHS: [Row; 27] = [
    (
        "extract with i at -1",
        Head::Extract,
        &[ZERO, (-1, 0, 0)],
        &["x"],
        ILL,
    ),
    (
        "extract with j below i",
        Head::Extract,
        &[ZERO, ONE],
        &["x"],
        ILL,
    ),
    (
        "extract with j at n",
        Head::Extract,
        &[N, ZERO],
        &["x"],
        ILL,
    ),
    (
        "extract with j at n - 1",
        Head::Extract,
        &[(-1, 1, 0), ZERO],
        &["x"],
        MADE,
    ),
    (
        "extract with j at 8",
        Head::Extract,
        &[(8, 0, 0), ZERO],
        &["byte"],
        ILL,
    ),
    (
        "extract with j at 7",
        Head::Extract,
        &[(7, 0, 0), ZERO],
        &["byte"],
        MADE,
    ),
    (
        "bvadd of n + 1 twice",
        Head::BvAdd,
        &[],
        &["x and a bit", "x extended"],
        MADE,
    ),
    (
        "= of n + 1 twice",
        Head::Equal,
        &[],
        &["x and a bit", "x extended"],
        MADE,
    ),
    ("bvadd of n and m", Head::BvAdd, &[], &["x", "y"], ILL),
    ("= of n and m", Head::Equal, &[], &["x", "y"], ILL),
    (
        "= of n and n + 1",
        Head::Equal,
        &[],
        &["x", "x extended"],
        ILL,
    ),
    ("repeat of n, m times", Head::Repeat, &[M], &["x"], ILL),
    (
        "repeat of n, 3 times",
        Head::Repeat,
        &[(3, 0, 0)],
        &["x"],
        MADE,
    ),
    (
        "repeat of a byte, m times",
        Head::Repeat,
        &[M],
        &["byte"],
        MADE,
    ),
    ("repeat 0 times", Head::Repeat, &[ZERO], &["x"], ILL),
    (
        "zero_extend by -1",
        Head::ZeroExtend,
        &[(-1, 0, 0)],
        &["byte"],
        ILL,
    ),
    ("sign_extend by m", Head::SignExtend, &[M], &["byte"], MADE),
    (
        "rotate_left by -1",
        Head::RotateLeft,
        &[(-1, 0, 0)],
        &["byte"],
        ILL,
    ),
    (
        "rotate_right by m",
        Head::RotateRight,
        &[M],
        &["byte"],
        MADE,
    ),
    ("wide", Head::Literal, &[ZERO, (MAX, 0, 0)], &[], MADE),
    ("4n - 3", Head::Literal, &[ZERO, (-3, 4, 0)], &[], MADE),
    (
        "a partial sum at 2^127",
        Head::Concat,
        &[],
        &["wide", "bit", "4n - 3"],
        LARGE,
    ),
    (
        "the same sum in i128",
        Head::Concat,
        &[],
        &["4n - 3", "wide", "bit"],
        MADE,
    ),
    (
        "zero_extend to 2^127",
        Head::ZeroExtend,
        &[ONE],
        &["wide"],
        LARGE,
    ),
    (
        "repeat to 2^128 - 2",
        Head::Repeat,
        &[(2, 0, 0)],
        &["wide"],
        LARGE,
    ),
    ("or of 256", Head::Or, &[], &["true"; 256], MADE),
    ("or of 257", Head::Or, &[], &["true"; 257], MANY),
];

/// Numbers. A value of 2^128 is no `u128` and no `i128`, so no caller can hand it in: of the values
/// that do not fit a width above 128 only the negative ones are left.
const NUMBERS: [Row; 13] = [
    (
        "numeral 2^127 - 1",
        Head::Numeral((1 << 127) - 1),
        &[],
        &[],
        MADE,
    ),
    ("numeral 2^127", Head::Numeral(1 << 127), &[], &[], LARGE),
    (
        "numeral 2^127 of one",
        Head::Numeral(1 << 127),
        &[],
        &["1"],
        ILL,
    ),
    (
        "bits 2^128 - 1 of 129",
        Head::Bits(u128::MAX),
        &[(129, 0, 0)],
        &[],
        MADE,
    ),
    (
        "2^127 - 1 of 129",
        Head::Literal,
        &[(MAX, 0, 0), (129, 0, 0)],
        &[],
        MADE,
    ),
    (
        "-1 of 129",
        Head::Literal,
        &[(-1, 0, 0), (129, 0, 0)],
        &[],
        LARGE,
    ),
    ("n of 129", Head::Literal, &[N, (129, 0, 0)], &[], MADE),
    (
        "-1 of 128",
        Head::Literal,
        &[(-1, 0, 0), (128, 0, 0)],
        &[],
        MADE,
    ),
    (
        "257 of 8",
        Head::Literal,
        &[(257, 0, 0), (8, 0, 0)],
        &[],
        MADE,
    ),
    (
        "-1 of 8",
        Head::Literal,
        &[(-1, 0, 0), (8, 0, 0)],
        &[],
        MADE,
    ),
    ("bits 257 of 8", Head::Bits(257), &[(8, 0, 0)], &[], MADE),
    (
        "bits 2^128 - 1 of 128",
        Head::Bits(u128::MAX),
        &[(128, 0, 0)],
        &[],
        MADE,
    ),
    ("3 of n", Head::Literal, &[(3, 0, 0), N], &[], MADE),
];

/// Terms of bit vectors that are made by other rows, and their widths.
const READS: [(Row, Numbers); 4] = [
    (("x", Head::Literal, &[ZERO, N], &[], MADE), N),
    (
        ("x and a bit", Head::Concat, &[], &["x", "bit"], MADE),
        (1, 1, 0),
    ),
    (
        (
            "extract with j at n - 1",
            Head::Extract,
            &[(-1, 1, 0), ZERO],
            &["x"],
            MADE,
        ),
        N,
    ),
    (
        (
            "repeat of a byte, m times",
            Head::Repeat,
            &[M],
            &["byte"],
            MADE,
        ),
        (0, 0, 8),
    ),
];

/// Measures, and which refusal comes first.
const MEASURES: [Row; 6] = [
    ("not of the deepest", Head::Not, &[], &["deepest"], DEEP),
    (
        "not of the deepest twice",
        Head::Not,
        &[],
        &["deepest", "deepest"],
        ILL,
    ),
    ("not 257 times", Head::Not, &[], &["deepest"; 257], MANY),
    ("largest", Head::Not, &[], &["one less"], MADE),
    ("not of the largest", Head::Not, &[], &["largest"], LARGE),
    ("and of both", Head::And, &[], &["deepest", "largest"], DEEP),
];

/// The first row of each table that is answered otherwise.
impl<T: Terms + Drop> Bench<T> {
    fn wrong_in_terms(&mut self) -> Option<&'static str>
        requires { IsReady (T.state self.old.terms) self.old.last }
        ensures { IsReady (T.state self.new.terms) self.new.last }
    {
        self.first_wrong(&TERMS)
    }

    fn wrong_in_sorts(&mut self) -> Option<&'static str>
        requires { IsReady (T.state self.old.terms) self.old.last }
        ensures { IsReady (T.state self.new.terms) self.new.last }
    {
        self.first_wrong(&SORTS)
    }

    fn wrong_in_widths(&mut self) -> Option<&'static str>
        requires { IsReady (T.state self.old.terms) self.old.last }
        ensures { IsReady (T.state self.new.terms) self.new.last }
    {
        self.first_wrong(&WIDTHS)
    }

    fn wrong_in_numbers(&mut self) -> Option<&'static str>
        requires { IsReady (T.state self.old.terms) self.old.last }
        ensures { IsReady (T.state self.new.terms) self.new.last }
    {
        self.first_wrong(&NUMBERS)
    }

    fn wrong_in_measures(&mut self) -> Option<&'static str>
        requires { IsReady (T.state self.old.terms) self.old.last }
        ensures { IsReady (T.state self.new.terms) self.new.last }
    {
        self.first_wrong(&MEASURES)
    }

    fn misread(&self) -> Result<Option<&'static str>, LinearError>
        requires { IsReady (T.state self.now.terms) self.now.last }
    {
        self.first_misread(&READS)
    }
}

/// What the literals of these rows are kept as.
const HEADS: [(&str, Head); 6] = [
    ("257 of 8", Head::Bits(1)),
    ("-1 of 8", Head::Bits(255)),
    ("bits 257 of 8", Head::Bits(1)),
    ("-1 of 128", Head::Bits(u128::MAX)),
    ("bits 2^128 - 1 of 129", Head::Bits(u128::MAX)),
    ("3 of n", Head::Literal),
];

/// Rows that make one term, and rows that don't.
const PAIRS: [(&str, &str, bool); 5] = [
    ("257 of 8", "byte", true),
    ("-1 of 128", "bits 2^128 - 1 of 128", true),
    ("-1 of 128", "bits 2^128 - 1 of 129", false),
    ("bit", "byte", false),
    ("x", "y", false),
];

/// What follows, where n is at least 2 and m at least 1.
const FOLLOWS: [(Numbers, bool); 4] = [
    ((-2, 1, 0), true),
    ((-3, 1, 0), false),
    ((-1, 0, 1), true),
    ((-2, 0, 1), false),
];

impl<T: Terms + Drop> Bench<T> {
    fn keeps_heads(&self) -> bool
        requires { IsReady (T.state self.now.terms) self.now.last }
    {
        for (name, head) in HEADS {
            if self.head_of(name) != Some(head) {
                return false;
            }
        }
        true
    }

    fn keeps_ids(&self) -> bool {
        for (a, b, same) in PAIRS {
            if (self.id_of(a) == self.id_of(b)) != same {
                return false;
            }
        }
        true
    }

    fn entails(&self) -> Result<bool, LinearError>
        requires { IsReady (T.state self.now.terms) self.now.last }
    {
        for (numbers, want) in FOLLOWS {
            if self.follows(numbers)? != want {
                return Ok(false);
            }
        }
        Ok(true)
    }
}

/// The first row that is answered otherwise, over terms of which none is made.
fn first_wrong_of<T: Terms + Drop>(alloc: Global, terms: T) -> Result<Option<&'static str>, Fail>
    requires { T.state terms ≡ no_terms }
{
    let mut bench = ready(alloc, terms)?;
    let found = bench.wrong_in_terms();
    let found = found.or(bench.wrong_in_sorts());
    let found = found.or(bench.wrong_in_widths());
    let found = found.or(bench.wrong_in_numbers());
    // from n nodes to 2 * n + 1, up to 2^20 - 1
    if !bench.raised("one less", Head::And, "true", 19) {
        return Ok(Some("one less"));
    }
    if !bench.raised("deepest", Head::Not, "true", 1999) {
        return Ok(Some("deepest"));
    }
    let found = found.or(bench.wrong_in_measures());
    bench.state_laws();
    Ok(found)
}

/// What is read otherwise.
fn misread_of<T: Terms + Drop>(alloc: Global, terms: T) -> Result<Option<&'static str>, Fail>
    requires { T.state terms ≡ no_terms }
{
    let mut bench = ready(alloc, terms)?;
    let found = bench.wrong_in_terms();
    let found = found.or(bench.wrong_in_widths());
    let found = found.or(bench.wrong_in_numbers());
    let found = found.or(bench.misread()?);
    if !bench.keeps_heads() {
        return Ok(Some("heads"));
    }
    if !bench.keeps_ids() {
        return Ok(Some("ids"));
    }
    if !bench.entails()? {
        return Ok(Some("entailed"));
    }
    Ok(found)
}

#[test]
fn terms_are_made_or_refused(rt: HostRuntime) -> Result<(), Fail> {
    let alloc = rt.alloc();
    assert_eq!(rt; first_wrong_of(alloc, Plain::new(alloc))?, None);
    Ok(())
}

#[test]
fn terms_are_read(rt: HostRuntime) -> Result<(), Fail> {
    let alloc = rt.alloc();
    assert_eq!(rt; misread_of(alloc, Plain::new(alloc))?, None);
    Ok(())
}
