//! The report, by what the commands came to.
ghost use Rattle.std.specs.Prelude.{◌≡◌, ◌<◌, Bool, not, ◌&&◌, ◌||◌, false, nat_eq, List, ℕ, [], length, map, IfOk, Some};
ghost use Rattle.rare_rule.specs.Books.{shipped_at};
ghost use Rattle.std.specs.List.{list_any};
ghost use Rattle.rare_sort.specs.declared.tree.Tree.{Tree};
ghost use Rattle.rare_text.specs.Stated.{stated_rewrite};
ghost use Rattle.rare_sort.specs.declared.declarations.Declarations.{Declarations};
ghost use Rattle.rare_check.specs.Checking.{report_with, trusted_with, verdicts_with};
ghost use Rattle.rare_check.specs.Verdicts.{verdict_by};
ghost use Rattle.rare_check.specs.inner.Progress.{progress_of};

use crate::judged::Judged;
use crate::report::{Report, Verdict, Verdicts};
use indexmap::IndexSet;
use rare_base::Numbers;
use rare_rule::Book;
use rare_text::Rewrite;
use std::alloc::{AllocError, Global};

fn verdict_of(k: usize, concluded: &IndexSet<usize>) -> Verdict
    ensures { result ≡ verdict_by (list_any (nat_eq k) concluded.now.keys || false) }
{
    if concluded.contains(&k) {
        Verdict::Valid
    } else {
        Verdict::Missing
    }
}

fn verdicts_of(
    alloc: Global,
    rewrites: &[Rewrite],
    concluded: &IndexSet<usize>,
) -> Result<Verdicts, AllocError>
    ensures { IfOk result (λ verdicts. (ts : List Tree) → verdicts
        ≡ verdicts_with (map (stated_rewrite ts) rewrites.now) concluded.now.keys []
        0 (map (stated_rewrite ts) rewrites.now)) }
{
    let mut verdicts = Verdicts::new(alloc);
    for k in 0..rewrites.len() {
        verdicts.push(verdict_of(k, concluded))?;
    }
    Ok(verdicts)
}

// Whether rule `k` of the book is named and not shipped.
fn is_trusted(book: &Book, named: &IndexSet<usize>, k: usize) -> bool
    requires { k < length book.now }
    ensures { (shipped : Bool) → shipped_at book.now k ≡ Some shipped →
        result ≡ (not shipped && (list_any (nat_eq k) named.now.keys || false)) }
{
    !book.is_shipped(k) && named.contains(&k)
}

// The numbers of the rules of the book that are named and not shipped, in order.
fn trusted_of(alloc: Global, book: &Book, named: &IndexSet<usize>) -> Result<Numbers, AllocError>
    ensures { IfOk result (λ trusted. trusted ≡ trusted_with book.now named.now.keys []) }
{
    let mut trusted = Numbers::new(alloc);
    for k in 0..book.len() {
        if is_trusted(book, named, k) {
            trusted.push(k)?;
        }
    }
    Ok(trusted)
}

/// The report on the commands of a proof by the rules of a book, none of which is to come.
pub fn report_of(
    alloc: Global,
    book: &Book,
    rewrites: &[Rewrite],
    judged: Judged,
) -> Result<Report, AllocError>
    ensures { IfOk result (λ report. (ts : List Tree) (d : Declarations) → report
        ≡ report_with d book.now (map (stated_rewrite ts) rewrites.now) (progress_of ts judged)
        judged.named.keys []) }
{
    let Judged {
        ids: _,
        places: _,
        proof: _,
        concluded,
        named,
        bad,
    } = judged;
    if let Some(bad) = bad {
        return Ok(Report::Invalid {
            name: bad.name,
            fault: bad.fault,
        });
    }
    let verdicts = verdicts_of(alloc, rewrites, &concluded)?;
    let trusted = trusted_of(alloc, book, &named)?;
    Ok(Report::Checked { verdicts, trusted })
}
