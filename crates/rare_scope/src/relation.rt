//! The relations of constraints.

/// The relation of a constraint.
#[derive(Clone, Copy, Debug, PartialEq, Eq)]
pub enum Relation {
    /// `>=`
    AtLeast,
    /// `>`
    Above,
    /// `<=`
    AtMost,
    /// `<`
    Below,
    /// `=`
    Equal,
}

/// The words of the relations.
pub const RELATIONS: [(&str, Relation); 5] = [
    (">=", Relation::AtLeast),
    (">", Relation::Above),
    ("<=", Relation::AtMost),
    ("<", Relation::Below),
    ("=", Relation::Equal),
];
