//! What the rule of sorts says of an application, under declarations.
ghost use Rattle.std.specs.Prelude.{◌≡◌, length, IfOk, Some, slice_get};
ghost use Rattle.rare_sort.specs.Ids.{AreIds, sorts_at};
ghost use Rattle.rare_sort.specs.DeclaredSorts.{widths, AreDeclared, AreNamed, AreSorts, IsSymbol};
ghost use Rattle.rare_sort.specs.Families.{family};
ghost use Rattle.rare_sort.specs.Rulings.{ruling, ruling_of_family};

use crate::declarations::Declarations;
use crate::family::{Family, family_of};
use crate::head::Head;
use crate::sort::Sort;
use crate::tree::TermId;
use crate::{bare, forming};
use rare_linear::Linear;
use std::alloc::{AllocError, Global};

/// What the rule of sorts says of an application.
#[derive(Debug, Drop)]
pub enum Ruling {
    /// It is ill sorted.
    Ill,
    /// It forms a width that leaves `i128`, or of which a partial sum does.
    Wide,
    Has(Sort),
}

/// What the rule of sorts says of an application, by the sorts of its arguments: `sorts[id]` is the
/// sort of the argument `id`. It fails for want of memory alone.
#[tactic(auto, unfolding(crate::specs::Rulings::ruling))]
pub fn ruling_of(
    alloc: Global,
    declared: &Declarations,
    head: Head,
    indices: &[Linear],
    sorts: &[Sort],
    args: &[TermId],
) -> Result<Ruling, AllocError>
    requires declared { AreDeclared declared.now }
    requires sorts { AreSorts declared.now sorts.now }
    requires names { AreNamed (widths declared.now) indices.now }
    requires symbol { IsSymbol (length declared.now.symbols) (family head) }
    requires ids { AreIds (length sorts.now) args.now }
    ensures { IfOk result (λ r. r ≡ ruling declared.now head indices.now
        (sorts_at sorts.now args.now)) }
{
    of_family(alloc, declared, family_of(head), indices, sorts, args)
}

/// What the rule of sorts of a family says.
fn of_family(
    alloc: Global,
    declared: &Declarations,
    family: Family,
    indices: &[Linear],
    sorts: &[Sort],
    args: &[TermId],
) -> Result<Ruling, AllocError>
    requires declared { AreDeclared declared.now }
    requires sorts { AreSorts declared.now sorts.now }
    requires names { AreNamed (widths declared.now) indices.now }
    requires symbol { IsSymbol (length declared.now.symbols) family }
    requires ids { AreIds (length sorts.now) args.now }
    ensures { IfOk result (λ r. r ≡ ruling_of_family declared.now family indices.now
        (sorts_at sorts.now args.now)) }
{
    match family {
        Family::Extract => forming::extract(alloc, declared, indices, sorts, args),
        Family::Extend => forming::extend(alloc, declared, indices, sorts, args),
        Family::Rotate => forming::rotate(alloc, declared, indices, sorts, args),
        Family::Repeat => forming::repeat(alloc, declared, indices, sorts, args),
        Family::Bits => forming::bits(alloc, declared, indices, args),
        Family::Literal => forming::literal(alloc, declared, indices, args),
        _ if indices.is_empty() => bare::ruling_of(alloc, declared, family, sorts, args),
        _ => Ok(Ruling::Ill),
    }
}
