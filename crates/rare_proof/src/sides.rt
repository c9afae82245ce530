//! The sides of an equation, by ids.
use rare_list::Sequence;
use rare_term::TermId;

/// The two sides of an equation.
#[derive(Clone, Copy, Debug)]
pub struct Sides {
    pub left: TermId,
    pub right: TermId,
}

/// A list of sides.
pub type SidesList = Sequence<Sides>;
