//! Rules that type, with their constraints, and rules of each case.
//!
//! The parameters of most are a width `n`, two indices `j` and `k`, and words `x` of the width `n`.
ghost use Rattle.std.specs.Prelude.{◌≡◌, [], IfOk};
ghost use Rattle.rare_sort.specs.declared.head.Head.TheVariants as head;
ghost use Rattle.rare_rule.specs.Written.{apply, plain_rule};

use crate::rows::Kind::{Index, List, Term, WideList, Width};
use crate::rows::SortRow::{Arrays, Truths, Wholes, Words};
use crate::rows::Step::{At, On, Param};
use crate::rows::{Kind, ROW, Row, Step, Sum, is_wanted, rule};
use crate::typing::constraints_by_typing;
use crate::{TypeError, type_rule, typing_is_exact};
use rare_base::Text;
use rare_linear::{Constraints, Linears};
use rare_rule::{Params, Rule, RuleKind};
use rare_sort::{Head, Tree, Trees};
use std::alloc::{AllocError, Global};
use std::process::Abort;
use std::test::Fail;

const MAX: i128 = i128::MAX;

const MIN: i128 = i128::MIN;

/// An expression of `n`, `j` and `k`.
const N: Sum = Sum {
    constant: 0,
    parts: &[(0, 1)],
};

const J: Sum = Sum {
    constant: 0,
    parts: &[(1, 1)],
};

const K: Sum = Sum {
    constant: 0,
    parts: &[(2, 1)],
};

const J_K: Sum = Sum {
    constant: 0,
    parts: &[(1, 1), (2, 1)],
};

const N_J_1: Sum = Sum {
    constant: -1,
    parts: &[(0, 1), (1, -1)],
};

const N_K_1: Sum = Sum {
    constant: -1,
    parts: &[(0, 1), (2, -1)],
};

const N_J_K_1: Sum = Sum {
    constant: -1,
    parts: &[(0, 1), (1, -1), (2, -1)],
};

const N_J_3: Sum = Sum {
    constant: -3,
    parts: &[(0, 1), (1, -1)],
};

const J_2: Sum = Sum {
    constant: 2,
    parts: &[(1, 1)],
};

const N_1: Sum = Sum {
    constant: -1,
    parts: &[(0, 1)],
};

const N_2: Sum = Sum {
    constant: -2,
    parts: &[(0, 1)],
};

const N_PLUS_1: Sum = Sum {
    constant: 1,
    parts: &[(0, 1)],
};

const ZERO: Sum = Sum {
    constant: 0,
    parts: &[],
};

const ONE: Sum = Sum {
    constant: 1,
    parts: &[],
};

const TWO: Sum = Sum {
    constant: 2,
    parts: &[],
};

const FOUR: Sum = Sum {
    constant: 4,
    parts: &[],
};

const FIVE: Sum = Sum {
    constant: 5,
    parts: &[],
};

const LESS: Sum = Sum {
    constant: -1,
    parts: &[],
};

const MOST: Sum = Sum {
    constant: MAX,
    parts: &[],
};

const LEAST: Sum = Sum {
    constant: MIN,
    parts: &[],
};

/// `n`, `j`, `k` and `x`.
const NAMES: &[Kind] = &[Width, Index, Index, Term(Words(N))];

const X: Step = Param(3);

const TRUE: Step = On(Head::True, 0);

/// `(extract j 0 x)`, of the width `j + 1`.
const LOW: &[Step] = &[X, At(Head::Extract, &[J, ZERO], 1)];

/// `(extract (+ j k) k x)`, of the width `j + 1`.
const HIGH: &[Step] = &[X, At(Head::Extract, &[J_K, K], 1)];

/// `(= (extract k k x) (extract k k x))`
const BIT: &[Step] = &[
    X,
    At(Head::Extract, &[K, K], 1),
    X,
    At(Head::Extract, &[K, K], 1),
    On(Head::Equal, 2),
];

/// `(bvand _ (extract (+ j 2) 2 x))`
const AROUND: &[Step] = &[
    On(Head::Hole, 0),
    X,
    At(Head::Extract, &[J_2, TWO], 1),
    On(Head::BvAnd, 2),
];

/// A row over `n`, `j`, `k` and `x` from low bits to low bits.
const LOWS: Row = Row {
    params: NAMES,
    left: LOW,
    right: LOW,
    want: Ok(&[N_J_1]),
    ..ROW
};

const CONSTRAINED: &[Row] = &[
    Row {
        name: "true to itself",
        ..ROW
    },
    Row {
        name: "low bits ask once for what both sides ask",
        ..LOWS
    },
    Row {
        name: "what the right side asks comes after what the left asks",
        right: HIGH,
        want: Ok(&[N_J_1, N_J_K_1]),
        ..LOWS
    },
    Row {
        name: "bounds, left, premises, right, context",
        bounds: &[N_2],
        premises: &[BIT],
        right: HIGH,
        context: Some(AROUND),
        want: Ok(&[N_2, N_J_1, N_K_1, N_J_K_1, N_J_3]),
        ..LOWS
    },
    Row {
        name: "a bound that follows from none",
        bounds: &[N_1],
        ..LOWS
    },
    Row {
        name: "a bound that the left side asks again",
        bounds: &[N_J_1],
        ..LOWS
    },
    Row {
        name: "the width in the sort of a parameter",
        params: &[Width, Term(Words(N_1))],
        left: &[Param(1)],
        right: &[Param(1)],
        want: Ok(&[N_2]),
        ..ROW
    },
    Row {
        name: "an argument before its application",
        params: &[Width, Index, Index, Term(Words(N_1))],
        left: LOW,
        right: LOW,
        want: Ok(&[
            N_2,
            Sum {
                constant: -2,
                parts: &[(0, 1), (1, -1)],
            },
        ]),
        ..ROW
    },
];

const TYPED: &[Row] = &[
    Row {
        name: "one argument, which is a list",
        params: &[List(Truths)],
        left: &[Param(0), On(Head::And, 1)],
        right: &[Param(0), On(Head::Or, 1)],
        ..ROW
    },
    Row {
        name: "words of any widths under concat",
        params: &[WideList],
        left: &[Param(0), On(Head::Concat, 1)],
        right: &[Param(0), On(Head::Concat, 1)],
        ..ROW
    },
    Row {
        name: "a word and a list of words under concat",
        params: &[Width, List(Words(N)), Term(Words(N))],
        left: &[Param(1), Param(2), On(Head::Concat, 2)],
        right: &[Param(2), Param(1), On(Head::Concat, 2)],
        ..ROW
    },
    Row {
        name: "four copies of words whose width has a name",
        params: NAMES,
        left: &[X, At(Head::Repeat, &[FOUR], 1)],
        right: &[X, X, X, X, On(Head::Concat, 4)],
        ..ROW
    },
    Row {
        name: "so many copies of one bit",
        params: &[Width, Term(Words(ONE))],
        left: &[Param(1), At(Head::Repeat, &[N], 1)],
        right: &[At(Head::Literal, &[ZERO, N], 0)],
        ..ROW
    },
    Row {
        name: "longer words and turned words",
        params: NAMES,
        left: &[
            X,
            At(Head::ZeroExtend, &[J], 1),
            At(Head::RotateLeft, &[K], 1),
        ],
        right: &[X, At(Head::SignExtend, &[J], 1)],
        ..ROW
    },
    Row {
        name: "arrays",
        params: &[Width, Term(Arrays(N)), Term(Wholes)],
        left: &[
            Param(1),
            Param(2),
            Param(1),
            Param(2),
            On(Head::Select, 2),
            On(Head::Store, 3),
        ],
        right: &[TRUE, Param(1), Param(1), On(Head::Ite, 3)],
        ..ROW
    },
];

/// A row over `n`, `j`, `k` and `x` that clashes.
const CLASH: Row = Row {
    params: NAMES,
    want: Err(TypeError::Clash),
    ..ROW
};

const CLASHES: &[Row] = &[
    Row {
        name: "not of a number",
        left: &[On(Head::Numeral(3), 0), On(Head::Not, 1)],
        ..CLASH
    },
    Row {
        name: "and of one",
        left: &[TRUE, On(Head::And, 1)],
        ..CLASH
    },
    Row {
        name: "concat of a truth",
        left: &[X, TRUE, On(Head::Concat, 2)],
        ..CLASH
    },
    Row {
        name: "words of two widths",
        params: &[Width, Width, Term(Words(N)), Term(Words(J))],
        left: &[Param(2), Param(3), On(Head::BvAdd, 2)],
        ..CLASH
    },
    Row {
        name: "a right side of another sort",
        right: &[On(Head::Numeral(3), 0)],
        ..CLASH
    },
    Row {
        name: "a premise that is a number",
        premises: &[&[TRUE], &[On(Head::Numeral(3), 0)]],
        ..CLASH
    },
    Row {
        name: "a context of another sort",
        context: Some(&[On(Head::Numeral(3), 0)]),
        ..CLASH
    },
    Row {
        name: "words of any widths under bvand",
        params: &[Width, WideList, Width, Term(Words(N))],
        left: &[X, Param(1), On(Head::BvAnd, 2)],
        right: &[X],
        ..CLASH
    },
    Row {
        name: "a list under bvsub",
        params: &[Width, List(Words(N)), Width, Term(Words(N))],
        left: &[X, Param(1), On(Head::BvSub, 2)],
        right: &[X],
        ..CLASH
    },
    Row {
        name: "the hole outside a context",
        left: &[On(Head::Hole, 0)],
        ..CLASH
    },
    Row {
        name: "a symbol of a problem",
        left: &[On(Head::Free(0), 0)],
        ..CLASH
    },
    Row {
        name: "a width in the place of a term",
        left: &[Param(0)],
        ..CLASH
    },
];

/// A row over words `x` of the width 4.
const FOURS: Row = Row {
    params: &[Width, Index, Index, Term(Words(FOUR))],
    left: &[X],
    right: &[X],
    ..ROW
};

const IMPOSSIBLE: &[Row] = &[
    Row {
        name: "bit 4 of four",
        left: &[X, At(Head::Extract, &[FOUR, ZERO], 1)],
        want: Err(TypeError::NeverHolds),
        ..FOURS
    },
    Row {
        name: "a bound that is false",
        bounds: &[LESS],
        want: Err(TypeError::NeverHolds),
        ..FOURS
    },
    Row {
        name: "words of the width 0",
        left: &[At(Head::Bits(0), &[ZERO], 0)],
        want: Err(TypeError::NeverHolds),
        ..FOURS
    },
    Row {
        name: "the sort of a root before a constraint of it",
        left: &[X, On(Head::BvNot, 1)],
        right: &[X, At(Head::Extract, &[FIVE, ZERO], 1)],
        want: Err(TypeError::Clash),
        ..FOURS
    },
    Row {
        name: "a constraint of an argument before the sorts of the application",
        left: &[X, At(Head::Extract, &[FOUR, ZERO], 1), On(Head::Not, 1)],
        want: Err(TypeError::NeverHolds),
        ..FOURS
    },
    Row {
        name: "the greatest bit of four",
        left: &[X, At(Head::Extract, &[MOST, MOST], 1)],
        want: Err(TypeError::NeverHolds),
        ..FOURS
    },
];

const LARGE: &[Row] = &[
    Row {
        name: "so many copies of a width that has a name",
        params: NAMES,
        left: &[X, At(Head::Repeat, &[K], 1)],
        want: Err(TypeError::NonLinear),
        ..ROW
    },
    Row {
        name: "a sum of widths beyond i128",
        params: &[Term(Words(MOST)), Term(Words(ONE))],
        left: &[Param(0), Param(1), On(Head::Concat, 2)],
        want: Err(TypeError::TooLarge),
        ..ROW
    },
    Row {
        name: "a partial sum beyond i128",
        params: &[
            Width,
            Term(Words(MOST)),
            Term(Words(N_PLUS_1)),
            Term(Words(N_2)),
        ],
        left: &[Param(1), Param(2), Param(3), On(Head::Concat, 3)],
        want: Err(TypeError::TooLarge),
        ..ROW
    },
    Row {
        name: "a longer width beyond i128",
        left: &[X, At(Head::ZeroExtend, &[MOST], 1)],
        want: Err(TypeError::TooLarge),
        ..FOURS
    },
    Row {
        name: "a constraint beyond i128, of a width within",
        left: &[X, At(Head::Extract, &[LEAST, ONE], 1)],
        want: Err(TypeError::TooLarge),
        ..FOURS
    },
    Row {
        name: "the sort of a root before a constraint of it beyond i128",
        right: &[X, At(Head::Extract, &[LEAST, ONE], 1)],
        want: Err(TypeError::Clash),
        ..FOURS
    },
    Row {
        name: "a width beyond i128 before the sort of a root",
        right: &[X, At(Head::Extract, &[MOST, LESS], 1)],
        want: Err(TypeError::TooLarge),
        ..FOURS
    },
    Row {
        name: "what a parameter's width asks beyond i128",
        params: &[Term(Words(LEAST))],
        left: &[Param(0)],
        want: Err(TypeError::TooLarge),
        ..ROW
    },
];

fn check(rt: &impl Abort, alloc: Global, rows: &[Row]) -> Result<(), Fail> {
    for row in rows {
        let rule = rule(alloc, row)?;
        let found = constraints_by_typing(alloc, &rule);
        assert!(rt; is_wanted(&found, row), "{}", row.name);
    }
    Ok(())
}

#[test]
fn rules_have_their_constraints_in_order(rt: HostRuntime) -> Result<(), Fail> {
    check(&rt, rt.alloc(), CONSTRAINED)?;
    check(&rt, rt.alloc(), TYPED)
}

#[test]
fn each_case_is_the_first(rt: HostRuntime) -> Result<(), Fail> {
    check(&rt, rt.alloc(), CLASHES)?;
    check(&rt, rt.alloc(), IMPOSSIBLE)?;
    check(&rt, rt.alloc(), LARGE)
}

fn truth(alloc: Global) -> Tree
    ensures { result ≡ apply head.True [] }
{
    Tree {
        head: Head::True,
        indices: Linears::new(alloc),
        args: Trees::new(alloc),
    }
}

/// `(define-rule r () true true)`
fn trivial(alloc: Global, name: &[u8]) -> Result<Rule, AllocError>
    ensures { IfOk result (λ r.
        r ≡ plain_rule name.now [] [] (apply head.True []) (apply head.True [])) }
{
    Ok(Rule {
        name: Text::of(alloc, name)?,
        kind: RuleKind::Plain,
        params: Params::new(alloc),
        bounds: Constraints::new(alloc),
        premises: Trees::new(alloc),
        left: truth(alloc),
        right: truth(alloc),
        context: None,
    })
}

#[test]
fn a_rule_in_form_is_typed(rt: HostRuntime) -> Result<(), Fail> {
    let typed = type_rule(rt.alloc(), trivial(rt.alloc(), b"r")?)?;
    assert_eq!(rt; typed.constraints().len(), 0);
    assert_eq!(rt; typed.rule().name.bytes(), b"r".as_slice());
    typing_is_exact();
    Ok(())
}
