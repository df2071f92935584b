// Where a form keeps what it says of each variable.

/// Where the variable stands.
#[derive(Clone, Copy, Debug)]
pub(crate) enum Place {
    /// It is nonbasic, and has this column.
    Column(usize),
    /// It is basic, and its equation is kept in this slot.
    Kept(usize),
    /// It is basic, and its equation follows from its pair.
    Paired,
}

/// The other of two variables that always add up to the same number.
#[derive(Clone, Copy, Debug)]
pub(crate) struct Pair {
    /// The other variable.
    pub(crate) other: usize,
    /// What the two add up to.
    pub(crate) sum: i64,
}
