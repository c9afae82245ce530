//! The limits of a term.

/// The most arguments of an application.
pub const MOST_ARGS: usize = 256;

/// The deepest nesting of a term. A term without arguments counts as 1.
pub const MOST_NESTED: usize = 2000;

/// The most nodes of a term, counted with repeats.
pub const MOST_NODES: usize = 1048576;
