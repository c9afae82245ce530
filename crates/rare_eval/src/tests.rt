//! Named rows of terms with their values, worked by hand from the standard.
ghost use Rattle.std.specs.Prelude.{◌≡◌, ℕ, ◌<◌, length, IfOk, IsTrue};
ghost use Rattle.rare_sort.specs.DeclaredSorts.{AreNamed, IsSymbol};
ghost use Rattle.rare_sort.specs.Families.{family};
ghost use Rattle.rare_sort.specs.Ids.{AreIds};
ghost use Rattle.rare_term.specs.Literals.{IsGiven};
ghost use Rattle.rare_term.specs.State.{no_terms};
ghost use Rattle.rare_eval.specs.inner.Ready.{IsReady};

use crate::{Value, application_evaluation_law, evaluation_law, value, value_term, value_term_law};
use rare_linear::{Linear, Linears};
use rare_sort::{Head, Ids, Sort, TermId};
use rare_term::{Plain, Terms};
use std::alloc::{AllocError, Global};
use std::test::Fail;

/// An operator with its indices, on so many of the terms before it that are not yet taken.
type Step = (Head, &'static [i128], usize);

/// What a row says, the term from its leaves on, and its value.
type Row = (&'static str, &'static [Step], Option<Value>);

/// Terms over one symbol, of sort Bool.
#[derive(Debug, Drop)]
struct Bench<T> {
    alloc: Global,
    terms: T,
    /// The last id.
    last: usize,
}

fn numbers(alloc: Global, indices: &[i128]) -> Result<Linears, AllocError>
    ensures { IfOk result (λ es. AreNamed 0 es) }
{
    let mut all = Linears::new(alloc);
    'indices: for n in indices {
        all.push(Linear::constant(alloc, *n))?;
    }
    Ok(all)
}

/// Whether the operator is none of rules alone, and its symbol is declared.
fn is_askable(head: Head, indices: &[Linear]) -> bool
    ensures symbol { IsTrue result → IsSymbol 1 (family head) }
    ensures bits { IsTrue result → IsGiven head indices.now }
{
    match head {
        Head::Free(k) => k == 0,
        Head::Param(_) | Head::Hole => false,
        Head::Bits(_) => match indices {
            [width] => width.parts().is_empty(),
            _ => false,
        },
        _ => true,
    }
}

fn are_up_to(last: usize, args: &[TermId]) -> bool
    ensures { IsTrue result → (n : ℕ) → last < n → AreIds n args.now }
{
    match args {
        [id, rest @ ..] => id.0 <= last && are_up_to(last, rest),
        [] => true,
    }
}

impl<T: Terms + Drop> Bench<T> {
    /// The term, where `make` may be asked for it and makes it.
    fn attempt(&mut self, head: Head, indices: &[Linear], args: &[TermId]) -> Option<TermId>
        requires ready { IsReady (T.state self.old.terms) self.old.last }
        requires names { AreNamed 0 indices.now }
        ensures { IsReady (T.state self.new.terms) self.new.last }
    {
        if !is_askable(head, indices) || !are_up_to(self.last, args) {
            return None;
        }
        let Ok(id) = self.terms.make(head, indices, args) else {
            return None;
        };
        self.last = self.last.max(id.0);
        Some(id)
    }

    /// The term of the steps.
    fn built(&mut self, steps: &[Step]) -> Option<TermId>
        requires { IsReady (T.state self.old.terms) self.old.last }
        ensures { IsReady (T.state self.new.terms) self.new.last }
    {
        let mut stack = Ids::new(self.alloc);
        'steps: for step in steps {
            if step.2 > stack.len() {
                return None;
            }
            let at = stack.len() - step.2;
            let Ok(args) = stack.split_off(at) else {
                return None;
            };
            let Ok(indices) = numbers(self.alloc, step.1) else {
                return None;
            };
            let Some(id) = self.attempt(step.0, indices.items(), args.items()) else {
                return None;
            };
            let Ok(()) = stack.push(id) else {
                return None;
            };
        }
        if stack.len() == 1 {
            Some(stack.pop())
        } else {
            None
        }
    }

    /// Whether the row's term is made and has the row's value.
    fn is_right(&mut self, row: &Row) -> bool
        requires { IsReady (T.state self.old.terms) self.old.last }
        ensures { IsReady (T.state self.new.terms) self.new.last }
    {
        match self.built(row.1) {
            Some(id) => id.0 <= self.last && value(&self.terms, id) == row.2,
            None => false,
        }
    }

    /// The first row that is answered otherwise.
    fn first_wrong(&mut self, rows: &[Row]) -> Option<&'static str>
        requires { IsReady (T.state self.old.terms) self.old.last }
        ensures { IsReady (T.state self.new.terms) self.new.last }
    {
        match rows {
            [row, rest @ ..] => {
                if !self.is_right(row) {
                    return Some(row.0);
                }
                self.first_wrong(rest)
            }
            [] => None,
        }
    }

    /// The term under so many negations.
    fn tower(&mut self, from: TermId, times: usize) -> Option<TermId>
        requires { IsReady (T.state self.old.terms) self.old.last }
        ensures { IsReady (T.state self.new.terms) self.new.last }
    {
        if times == 0 {
            return Some(from);
        }
        let id = self.attempt(Head::Not, &[], &[from])?;
        self.tower(id, times - 1)
    }
}

/// Terms over one symbol of sort Bool.
fn ready<T: Terms + Drop>(alloc: Global, terms: T) -> Result<Bench<T>, Fail>
    requires { T.state terms ≡ no_terms }
    ensures { IfOk result (λ b. IsReady (T.state b.terms) b.last) }
{
    let mut terms = terms;
    terms.declare_symbol(&[], &Sort::Bool)?;
    let Ok(id) = terms.make(Head::True, &[], &[]) else {
        return Err(AllocError.into());
    };
    Ok(Bench {
        alloc,
        terms,
        last: id.0,
    })
}

const TRUE: Step = (Head::True, &[], 0);

const FALSE: Step = (Head::False, &[], 0);

const NEG: Step = (Head::Neg, &[], 1);

const MAX: Step = (
    Head::Numeral(170141183460469231731687303715884105727),
    &[],
    0,
);

const ONES: Step = (Head::Bits(u128::MAX), &[128], 0);

/// Rows of truth values.
const TRUTHS: [Row; 9] = [
    ("true", &[TRUE], Some(Value::Truth(true))),
    ("a symbol", &[(Head::Free(0), &[], 0)], None),
    (
        "and with a symbol",
        &[FALSE, (Head::Free(0), &[], 0), (Head::And, &[], 2)],
        None,
    ),
    (
        "not",
        &[TRUE, (Head::Not, &[], 1)],
        Some(Value::Truth(false)),
    ),
    (
        "and",
        &[TRUE, TRUE, FALSE, (Head::And, &[], 3)],
        Some(Value::Truth(false)),
    ),
    (
        "or",
        &[FALSE, FALSE, TRUE, (Head::Or, &[], 3)],
        Some(Value::Truth(true)),
    ),
    (
        "implies to the right",
        &[FALSE, TRUE, FALSE, (Head::Implies, &[], 3)],
        Some(Value::Truth(true)),
    ),
    (
        "implies of true",
        &[TRUE, TRUE, FALSE, (Head::Implies, &[], 3)],
        Some(Value::Truth(false)),
    ),
    (
        "xor of three",
        &[TRUE, TRUE, TRUE, (Head::Xor, &[], 3)],
        Some(Value::Truth(true)),
    ),
];

/// Rows of equality, distinctness and choice.
const EQUALITIES: [Row; 10] = [
    (
        "equal in a chain",
        &[
            (Head::Numeral(2), &[], 0),
            (Head::Numeral(2), &[], 0),
            (Head::Numeral(3), &[], 0),
            (Head::Equal, &[], 3),
        ],
        Some(Value::Truth(false)),
    ),
    (
        "equal of three",
        &[
            (Head::Numeral(2), &[], 0),
            (Head::Numeral(2), &[], 0),
            (Head::Numeral(2), &[], 0),
            (Head::Equal, &[], 3),
        ],
        Some(Value::Truth(true)),
    ),
    (
        "distinct of three",
        &[
            (Head::Numeral(1), &[], 0),
            (Head::Numeral(2), &[], 0),
            (Head::Numeral(3), &[], 0),
            (Head::Distinct, &[], 3),
        ],
        Some(Value::Truth(true)),
    ),
    (
        "distinct with a repeat",
        &[
            (Head::Numeral(1), &[], 0),
            (Head::Numeral(2), &[], 0),
            NEG,
            (Head::Numeral(1), &[], 0),
            (Head::Distinct, &[], 3),
        ],
        Some(Value::Truth(false)),
    ),
    (
        "distinct of 1 and -1 and 0",
        &[
            (Head::Numeral(1), &[], 0),
            (Head::Numeral(1), &[], 0),
            NEG,
            (Head::Numeral(0), &[], 0),
            (Head::Distinct, &[], 3),
        ],
        Some(Value::Truth(true)),
    ),
    (
        "distinct of two truths",
        &[TRUE, FALSE, (Head::Distinct, &[], 2)],
        Some(Value::Truth(true)),
    ),
    (
        "distinct of three truths",
        &[TRUE, FALSE, TRUE, (Head::Distinct, &[], 3)],
        Some(Value::Truth(false)),
    ),
    (
        "distinct with an open one",
        &[
            (Head::Numeral(1), &[], 0),
            (Head::Numeral(2), &[], 0),
            (Head::Numeral(3), &[], 0),
            (Head::Numeral(0), &[], 0),
            (Head::Div, &[], 2),
            (Head::Distinct, &[], 3),
        ],
        None,
    ),
    (
        "ite evaluates both branches",
        &[
            TRUE,
            (Head::Numeral(1), &[], 0),
            (Head::Numeral(1), &[], 0),
            (Head::Numeral(0), &[], 0),
            (Head::Mod, &[], 2),
            (Head::Ite, &[], 3),
        ],
        None,
    ),
    (
        "ite",
        &[
            FALSE,
            (Head::Numeral(1), &[], 0),
            (Head::Numeral(2), &[], 0),
            (Head::Ite, &[], 3),
        ],
        Some(Value::Whole(2)),
    ),
];

/// Rows of sums, differences and products.
const SUMS: [Row; 10] = [
    (
        "minus to the left",
        &[
            (Head::Numeral(10), &[], 0),
            (Head::Numeral(3), &[], 0),
            (Head::Numeral(2), &[], 0),
            (Head::Minus, &[], 3),
        ],
        Some(Value::Whole(5)),
    ),
    (
        "add",
        &[
            (Head::Numeral(1), &[], 0),
            (Head::Numeral(2), &[], 0),
            (Head::Numeral(5), &[], 0),
            NEG,
            (Head::Add, &[], 3),
        ],
        Some(Value::Whole(-2)),
    ),
    (
        "mul",
        &[
            (Head::Numeral(2), &[], 0),
            (Head::Numeral(3), &[], 0),
            NEG,
            (Head::Numeral(4), &[], 0),
            (Head::Mul, &[], 3),
        ],
        Some(Value::Whole(-24)),
    ),
    (
        "neg",
        &[(Head::Numeral(5), &[], 0), NEG],
        Some(Value::Whole(-5)),
    ),
    (
        "abs",
        &[(Head::Numeral(5), &[], 0), NEG, (Head::Abs, &[], 1)],
        Some(Value::Whole(5)),
    ),
    (
        "sum beyond the limit",
        &[MAX, (Head::Numeral(1), &[], 0), (Head::Add, &[], 2)],
        None,
    ),
    (
        "partial sum beyond the limit",
        &[
            MAX,
            (Head::Numeral(1), &[], 0),
            MAX,
            NEG,
            (Head::Add, &[], 3),
        ],
        None,
    ),
    ("least number", &[MAX, NEG], Some(Value::Whole(-i128::MAX))),
    (
        "below the least number",
        &[MAX, NEG, (Head::Numeral(1), &[], 0), (Head::Minus, &[], 2)],
        None,
    ),
    (
        "product beyond the limit",
        &[MAX, (Head::Numeral(2), &[], 0), (Head::Mul, &[], 2)],
        None,
    ),
];

/// Rows of quotients and remainders.
const QUOTIENTS: [Row; 12] = [
    (
        "7 div 2",
        &[
            (Head::Numeral(7), &[], 0),
            (Head::Numeral(2), &[], 0),
            (Head::Div, &[], 2),
        ],
        Some(Value::Whole(3)),
    ),
    (
        "7 mod 2",
        &[
            (Head::Numeral(7), &[], 0),
            (Head::Numeral(2), &[], 0),
            (Head::Mod, &[], 2),
        ],
        Some(Value::Whole(1)),
    ),
    (
        "-7 div 2",
        &[
            (Head::Numeral(7), &[], 0),
            NEG,
            (Head::Numeral(2), &[], 0),
            (Head::Div, &[], 2),
        ],
        Some(Value::Whole(-4)),
    ),
    (
        "-7 mod 2",
        &[
            (Head::Numeral(7), &[], 0),
            NEG,
            (Head::Numeral(2), &[], 0),
            (Head::Mod, &[], 2),
        ],
        Some(Value::Whole(1)),
    ),
    (
        "7 div -2",
        &[
            (Head::Numeral(7), &[], 0),
            (Head::Numeral(2), &[], 0),
            NEG,
            (Head::Div, &[], 2),
        ],
        Some(Value::Whole(-3)),
    ),
    (
        "7 mod -2",
        &[
            (Head::Numeral(7), &[], 0),
            (Head::Numeral(2), &[], 0),
            NEG,
            (Head::Mod, &[], 2),
        ],
        Some(Value::Whole(1)),
    ),
    (
        "-7 div -2",
        &[
            (Head::Numeral(7), &[], 0),
            NEG,
            (Head::Numeral(2), &[], 0),
            NEG,
            (Head::Div, &[], 2),
        ],
        Some(Value::Whole(4)),
    ),
    (
        "-7 mod -2",
        &[
            (Head::Numeral(7), &[], 0),
            NEG,
            (Head::Numeral(2), &[], 0),
            NEG,
            (Head::Mod, &[], 2),
        ],
        Some(Value::Whole(1)),
    ),
    (
        "div of three",
        &[
            (Head::Numeral(100), &[], 0),
            (Head::Numeral(7), &[], 0),
            (Head::Numeral(3), &[], 0),
            (Head::Div, &[], 3),
        ],
        Some(Value::Whole(4)),
    ),
    (
        "div by 0",
        &[
            (Head::Numeral(7), &[], 0),
            (Head::Numeral(0), &[], 0),
            (Head::Div, &[], 2),
        ],
        None,
    ),
    (
        "div by 0 last",
        &[
            (Head::Numeral(7), &[], 0),
            (Head::Numeral(2), &[], 0),
            (Head::Numeral(0), &[], 0),
            (Head::Div, &[], 3),
        ],
        None,
    ),
    (
        "mod by 0",
        &[
            (Head::Numeral(7), &[], 0),
            (Head::Numeral(0), &[], 0),
            (Head::Mod, &[], 2),
        ],
        None,
    ),
];

/// Rows of the order of whole numbers.
const ORDERS: [Row; 4] = [
    (
        "le in a chain",
        &[
            (Head::Numeral(1), &[], 0),
            (Head::Numeral(1), &[], 0),
            (Head::Numeral(2), &[], 0),
            (Head::Le, &[], 3),
        ],
        Some(Value::Truth(true)),
    ),
    (
        "lt in a chain",
        &[
            (Head::Numeral(1), &[], 0),
            (Head::Numeral(1), &[], 0),
            (Head::Lt, &[], 2),
        ],
        Some(Value::Truth(false)),
    ),
    (
        "ge in a chain",
        &[
            (Head::Numeral(2), &[], 0),
            (Head::Numeral(2), &[], 0),
            (Head::Numeral(3), &[], 0),
            (Head::Ge, &[], 3),
        ],
        Some(Value::Truth(false)),
    ),
    (
        "gt in a chain",
        &[
            (Head::Numeral(3), &[], 0),
            (Head::Numeral(2), &[], 0),
            (Head::Numeral(1), &[], 0),
            NEG,
            (Head::Gt, &[], 3),
        ],
        Some(Value::Truth(true)),
    ),
];

/// Rows of quotients and remainders of bit vectors.
const WORD_QUOTIENTS: [Row; 9] = [
    (
        "bvsdiv of the least by -1",
        &[
            (Head::Bits(0b1000), &[4], 0),
            (Head::Bits(0b1111), &[4], 0),
            (Head::BvSdiv, &[], 2),
        ],
        Some(Value::Bits {
            width: 4,
            value: 0b1000,
        }),
    ),
    (
        "bvsmod",
        &[
            (Head::Bits(0b1111), &[4], 0),
            (Head::Bits(0b1000), &[4], 0),
            (Head::BvSmod, &[], 2),
        ],
        Some(Value::Bits {
            width: 4,
            value: 0b1111,
        }),
    ),
    (
        "bvsmod by 0",
        &[
            (Head::Bits(0b1000), &[4], 0),
            (Head::Bits(0b0000), &[4], 0),
            (Head::BvSmod, &[], 2),
        ],
        Some(Value::Bits {
            width: 4,
            value: 0b1000,
        }),
    ),
    (
        "bvsdiv by 0",
        &[
            (Head::Bits(0b1000), &[4], 0),
            (Head::Bits(0b0000), &[4], 0),
            (Head::BvSdiv, &[], 2),
        ],
        Some(Value::Bits {
            width: 4,
            value: 0b0001,
        }),
    ),
    (
        "bvsdiv of a positive by 0",
        &[
            (Head::Bits(0b0101), &[4], 0),
            (Head::Bits(0b0000), &[4], 0),
            (Head::BvSdiv, &[], 2),
        ],
        Some(Value::Bits {
            width: 4,
            value: 0b1111,
        }),
    ),
    (
        "bvudiv by 0",
        &[
            (Head::Bits(0b1111), &[4], 0),
            (Head::Bits(0b0000), &[4], 0),
            (Head::BvUdiv, &[], 2),
        ],
        Some(Value::Bits {
            width: 4,
            value: 0b1111,
        }),
    ),
    (
        "bvurem by 0",
        &[
            (Head::Bits(0b1011), &[4], 0),
            (Head::Bits(0b0000), &[4], 0),
            (Head::BvUrem, &[], 2),
        ],
        Some(Value::Bits {
            width: 4,
            value: 0b1011,
        }),
    ),
    (
        "bvsrem by 0",
        &[
            (Head::Bits(0b1001), &[4], 0),
            (Head::Bits(0b0000), &[4], 0),
            (Head::BvSrem, &[], 2),
        ],
        Some(Value::Bits {
            width: 4,
            value: 0b1001,
        }),
    ),
    (
        "bvsrem",
        &[
            (Head::Bits(0b1001), &[4], 0),
            (Head::Bits(0b0010), &[4], 0),
            (Head::BvSrem, &[], 2),
        ],
        Some(Value::Bits {
            width: 4,
            value: 0b1111,
        }),
    ),
];

/// Rows of sums, products and shifts of bit vectors.
const WORD_SUMS: [Row; 7] = [
    (
        "bvsub",
        &[
            (Head::Bits(0b0011), &[4], 0),
            (Head::Bits(0b0101), &[4], 0),
            (Head::BvSub, &[], 2),
        ],
        Some(Value::Bits {
            width: 4,
            value: 0b1110,
        }),
    ),
    (
        "bvshl by the width",
        &[
            (Head::Bits(0b1111), &[4], 0),
            (Head::Bits(0b0100), &[4], 0),
            (Head::BvShl, &[], 2),
        ],
        Some(Value::Bits {
            width: 4,
            value: 0b0000,
        }),
    ),
    (
        "bvlshr by more",
        &[
            (Head::Bits(0b1111), &[4], 0),
            (Head::Bits(0b1111), &[4], 0),
            (Head::BvLshr, &[], 2),
        ],
        Some(Value::Bits {
            width: 4,
            value: 0b0000,
        }),
    ),
    (
        "bvashr by more",
        &[
            (Head::Bits(0b1000), &[4], 0),
            (Head::Bits(0b0111), &[4], 0),
            (Head::BvAshr, &[], 2),
        ],
        Some(Value::Bits {
            width: 4,
            value: 0b1111,
        }),
    ),
    (
        "bvadd of three",
        &[
            (Head::Bits(0b1001), &[4], 0),
            (Head::Bits(0b1000), &[4], 0),
            (Head::Bits(0b0001), &[4], 0),
            (Head::BvAdd, &[], 3),
        ],
        Some(Value::Bits {
            width: 4,
            value: 0b0010,
        }),
    ),
    (
        "bvmul of all ones",
        &[ONES, ONES, (Head::BvMul, &[], 2)],
        Some(Value::Bits {
            width: 128,
            value: 1,
        }),
    ),
    (
        "bvneg",
        &[(Head::Bits(0b0001), &[4], 0), (Head::BvNeg, &[], 1)],
        Some(Value::Bits {
            width: 4,
            value: 0b1111,
        }),
    ),
];

/// Rows of operators on bits.
const BITWISE: [Row; 7] = [
    (
        "bvnand",
        &[
            (Head::Bits(0b1100), &[4], 0),
            (Head::Bits(0b1010), &[4], 0),
            (Head::BvNand, &[], 2),
        ],
        Some(Value::Bits {
            width: 4,
            value: 0b0111,
        }),
    ),
    (
        "bvnor",
        &[
            (Head::Bits(0b1100), &[4], 0),
            (Head::Bits(0b1010), &[4], 0),
            (Head::BvNor, &[], 2),
        ],
        Some(Value::Bits {
            width: 4,
            value: 0b0001,
        }),
    ),
    (
        "bvxnor",
        &[
            (Head::Bits(0b1100), &[4], 0),
            (Head::Bits(0b1010), &[4], 0),
            (Head::BvXnor, &[], 2),
        ],
        Some(Value::Bits {
            width: 4,
            value: 0b1001,
        }),
    ),
    (
        "bvand of three",
        &[
            (Head::Bits(0b1110), &[4], 0),
            (Head::Bits(0b0111), &[4], 0),
            (Head::Bits(0b0101), &[4], 0),
            (Head::BvAnd, &[], 3),
        ],
        Some(Value::Bits {
            width: 4,
            value: 0b0100,
        }),
    ),
    (
        "bvor",
        &[
            (Head::Bits(0b1100), &[4], 0),
            (Head::Bits(0b1010), &[4], 0),
            (Head::BvOr, &[], 2),
        ],
        Some(Value::Bits {
            width: 4,
            value: 0b1110,
        }),
    ),
    (
        "bvxor",
        &[
            (Head::Bits(0b1100), &[4], 0),
            (Head::Bits(0b1010), &[4], 0),
            (Head::BvXor, &[], 2),
        ],
        Some(Value::Bits {
            width: 4,
            value: 0b0110,
        }),
    ),
    (
        "bvnot",
        &[(Head::Bits(0b0101), &[4], 0), (Head::BvNot, &[], 1)],
        Some(Value::Bits {
            width: 4,
            value: 0b1010,
        }),
    ),
];

/// Rows of the orders of bit vectors.
const WORD_ORDERS: [Row; 10] = [
    (
        "bvult",
        &[
            (Head::Bits(0b1000), &[4], 0),
            (Head::Bits(0b0111), &[4], 0),
            (Head::BvUlt, &[], 2),
        ],
        Some(Value::Truth(false)),
    ),
    (
        "bvule",
        &[
            (Head::Bits(0b0111), &[4], 0),
            (Head::Bits(0b0111), &[4], 0),
            (Head::BvUle, &[], 2),
        ],
        Some(Value::Truth(true)),
    ),
    (
        "bvugt",
        &[
            (Head::Bits(0b1000), &[4], 0),
            (Head::Bits(0b0111), &[4], 0),
            (Head::BvUgt, &[], 2),
        ],
        Some(Value::Truth(true)),
    ),
    (
        "bvuge",
        &[
            (Head::Bits(0b0111), &[4], 0),
            (Head::Bits(0b1000), &[4], 0),
            (Head::BvUge, &[], 2),
        ],
        Some(Value::Truth(false)),
    ),
    (
        "bvslt",
        &[
            (Head::Bits(0b1000), &[4], 0),
            (Head::Bits(0b0111), &[4], 0),
            (Head::BvSlt, &[], 2),
        ],
        Some(Value::Truth(true)),
    ),
    (
        "bvsle",
        &[
            (Head::Bits(0b0111), &[4], 0),
            (Head::Bits(0b1000), &[4], 0),
            (Head::BvSle, &[], 2),
        ],
        Some(Value::Truth(false)),
    ),
    (
        "bvsgt",
        &[
            (Head::Bits(0b1000), &[4], 0),
            (Head::Bits(0b0111), &[4], 0),
            (Head::BvSgt, &[], 2),
        ],
        Some(Value::Truth(false)),
    ),
    (
        "bvsge",
        &[
            (Head::Bits(0b0111), &[4], 0),
            (Head::Bits(0b1000), &[4], 0),
            (Head::BvSge, &[], 2),
        ],
        Some(Value::Truth(true)),
    ),
    (
        "bvcomp",
        &[
            (Head::Bits(0b0101), &[4], 0),
            (Head::Bits(0b0101), &[4], 0),
            (Head::BvComp, &[], 2),
        ],
        Some(Value::Bits { width: 1, value: 1 }),
    ),
    (
        "bvcomp of others",
        &[
            (Head::Bits(0b0101), &[4], 0),
            (Head::Bits(0b0100), &[4], 0),
            (Head::BvComp, &[], 2),
        ],
        Some(Value::Bits { width: 1, value: 0 }),
    ),
];

/// Rows of parts, extensions and rotations.
const PARTS: [Row; 7] = [
    (
        "extract",
        &[(Head::Bits(0b1010), &[4], 0), (Head::Extract, &[2, 1], 1)],
        Some(Value::Bits {
            width: 2,
            value: 0b01,
        }),
    ),
    (
        "extract of 129",
        &[
            ONES,
            (Head::Bits(0), &[1], 0),
            (Head::Concat, &[], 2),
            (Head::Extract, &[0, 0], 1),
        ],
        None,
    ),
    (
        "zero_extend",
        &[(Head::Bits(0b1000), &[4], 0), (Head::ZeroExtend, &[4], 1)],
        Some(Value::Bits {
            width: 8,
            value: 0b1000,
        }),
    ),
    (
        "sign_extend",
        &[(Head::Bits(0b1000), &[4], 0), (Head::SignExtend, &[4], 1)],
        Some(Value::Bits {
            width: 8,
            value: 0b1111_1000,
        }),
    ),
    (
        "zero_extend to 129",
        &[ONES, (Head::ZeroExtend, &[1], 1)],
        None,
    ),
    (
        "rotate_left by more",
        &[(Head::Bits(0b1001), &[4], 0), (Head::RotateLeft, &[5], 1)],
        Some(Value::Bits {
            width: 4,
            value: 0b0011,
        }),
    ),
    (
        "rotate_right by more",
        &[(Head::Bits(0b1001), &[4], 0), (Head::RotateRight, &[5], 1)],
        Some(Value::Bits {
            width: 4,
            value: 0b1100,
        }),
    ),
];

/// Rows of joins, copies and literals.
const JOINS: [Row; 8] = [
    (
        "concat",
        &[
            (Head::Bits(0b0011), &[4], 0),
            (Head::Bits(0b0101), &[4], 0),
            (Head::Concat, &[], 2),
        ],
        Some(Value::Bits {
            width: 8,
            value: 0b0011_0101,
        }),
    ),
    (
        "concat to 128",
        &[
            (Head::Bits(1), &[1], 0),
            (Head::Bits(0), &[127], 0),
            (Head::Concat, &[], 2),
        ],
        Some(Value::Bits {
            width: 128,
            value: 1 << 127,
        }),
    ),
    (
        "concat to 129",
        &[ONES, (Head::Bits(0), &[1], 0), (Head::Concat, &[], 2)],
        None,
    ),
    (
        "repeat 1",
        &[(Head::Bits(0b1001), &[4], 0), (Head::Repeat, &[1], 1)],
        Some(Value::Bits {
            width: 4,
            value: 0b1001,
        }),
    ),
    (
        "repeat 2",
        &[(Head::Bits(0b1001), &[4], 0), (Head::Repeat, &[2], 1)],
        Some(Value::Bits {
            width: 8,
            value: 0b1001_1001,
        }),
    ),
    (
        "repeat 33",
        &[(Head::Bits(0b1001), &[4], 0), (Head::Repeat, &[33], 1)],
        None,
    ),
    ("literal of width 129", &[(Head::Bits(0), &[129], 0)], None),
    (
        "literal of value and width",
        &[(Head::Literal, &[-1, 4], 0)],
        Some(Value::Bits {
            width: 4,
            value: 0b1111,
        }),
    ),
];

/// The first row of this keeper that is answered otherwise.
fn first_wrong_of<T: Terms + Drop>(
    alloc: Global,
    terms: T,
    rows: &[Row],
) -> Result<Option<&'static str>, Fail>
    requires { T.state terms ≡ no_terms }
{
    let mut bench = ready(alloc, terms)?;
    Ok(bench.first_wrong(rows))
}

/// The value of a negation that nests as deep as a term may.
fn deepest_of<T: Terms + Drop>(alloc: Global, terms: T) -> Result<Option<Value>, Fail>
    requires { T.state terms ≡ no_terms }
{
    let mut bench = ready(alloc, terms)?;
    let Some(id) = bench.built(&[TRUE]) else {
        return Ok(None);
    };
    match bench.tower(id, 1999) {
        Some(id) if id.0 <= bench.last => Ok(value(&bench.terms, id)),
        _ => Ok(None),
    }
}

/// The value of the value term of -3.
fn value_again<T: Terms + Drop>(alloc: Global, terms: T) -> Result<Option<Value>, Fail>
    requires { T.state terms ≡ no_terms }
{
    let mut terms = terms;
    let id = value_term(alloc, &mut terms, Value::Whole(-3))?;
    Ok(value(&terms, id))
}

#[test]
fn truth_values(rt: HostRuntime) -> Result<(), Fail> {
    let alloc = rt.alloc();
    assert_eq!(rt; first_wrong_of(alloc, Plain::new(alloc), &TRUTHS)?, None);
    Ok(())
}

#[test]
fn equality_and_choice(rt: HostRuntime) -> Result<(), Fail> {
    let alloc = rt.alloc();
    assert_eq!(rt;
        first_wrong_of(alloc, Plain::new(alloc), &EQUALITIES)?,
        None
    );
    Ok(())
}

#[test]
fn sums_and_products(rt: HostRuntime) -> Result<(), Fail> {
    let alloc = rt.alloc();
    assert_eq!(rt; first_wrong_of(alloc, Plain::new(alloc), &SUMS)?, None);
    Ok(())
}

#[test]
fn quotients_and_remainders(rt: HostRuntime) -> Result<(), Fail> {
    let alloc = rt.alloc();
    assert_eq!(rt; first_wrong_of(alloc, Plain::new(alloc), &QUOTIENTS)?, None);
    Ok(())
}

#[test]
fn orders_of_whole_numbers(rt: HostRuntime) -> Result<(), Fail> {
    let alloc = rt.alloc();
    assert_eq!(rt; first_wrong_of(alloc, Plain::new(alloc), &ORDERS)?, None);
    Ok(())
}

#[test]
fn quotients_of_bit_vectors(rt: HostRuntime) -> Result<(), Fail> {
    let alloc = rt.alloc();
    assert_eq!(rt;
        first_wrong_of(alloc, Plain::new(alloc), &WORD_QUOTIENTS)?,
        None
    );
    Ok(())
}

#[test]
fn sums_and_shifts_of_bit_vectors(rt: HostRuntime) -> Result<(), Fail> {
    let alloc = rt.alloc();
    assert_eq!(rt; first_wrong_of(alloc, Plain::new(alloc), &WORD_SUMS)?, None);
    Ok(())
}

#[test]
fn operators_on_bits(rt: HostRuntime) -> Result<(), Fail> {
    let alloc = rt.alloc();
    assert_eq!(rt; first_wrong_of(alloc, Plain::new(alloc), &BITWISE)?, None);
    Ok(())
}

#[test]
fn orders_of_bit_vectors(rt: HostRuntime) -> Result<(), Fail> {
    let alloc = rt.alloc();
    assert_eq!(rt;
        first_wrong_of(alloc, Plain::new(alloc), &WORD_ORDERS)?,
        None
    );
    Ok(())
}

#[test]
fn parts_of_bit_vectors(rt: HostRuntime) -> Result<(), Fail> {
    let alloc = rt.alloc();
    assert_eq!(rt; first_wrong_of(alloc, Plain::new(alloc), &PARTS)?, None);
    Ok(())
}

#[test]
fn joins_of_bit_vectors(rt: HostRuntime) -> Result<(), Fail> {
    let alloc = rt.alloc();
    assert_eq!(rt; first_wrong_of(alloc, Plain::new(alloc), &JOINS)?, None);
    Ok(())
}

#[test]
fn nesting_of_2000(rt: HostRuntime) -> Result<(), Fail> {
    let alloc = rt.alloc();
    assert_eq!(rt;
        deepest_of(alloc, Plain::new(alloc))?,
        Some(Value::Truth(false))
    );
    Ok(())
}

#[test]
fn value_terms_and_laws(rt: HostRuntime) -> Result<(), Fail> {
    let alloc = rt.alloc();
    assert_eq!(rt;
        value_again(alloc, Plain::new(alloc))?,
        Some(Value::Whole(-3))
    );
    application_evaluation_law();
    evaluation_law();
    value_term_law();
    Ok(())
}
