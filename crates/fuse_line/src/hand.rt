//! What a pass knows. It exists in contracts alone.
use std::collections::LinkedList;

/// What a pass is for.
#[derive(Clone, Copy)]
pub enum Kind {
    /// The one that came with the line. It does all that the others do, and counts the inner ones.
    First,
    /// Split off the first: it pushes any item, and pops.
    Inner,
    /// It pushes items that are not inner, and pops none.
    Door,
    /// What is left of a pass that was joined into another.
    Spent,
}

/// What a pass knows. No value of it is made.
pub struct Hand<T> {
    /// Which kind of pass it is.
    pub kind: Kind,
    /// How many inner passes were split off it and not joined back.
    pub others: u64,
    /// The items that it pushed, in order.
    pub put: LinkedList<T>,
    /// The items that it took, in order.
    pub taken: LinkedList<T>,
}
