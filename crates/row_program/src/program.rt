// Programs and points, with their bounds.
ghost use Rattle.std.proofs.Props.{props};
ghost use Rattle.row_program.specs.Bounds.{IsProgram, IsSmallPoint};

use mov_base::{Copies, List, Memory};
use std::alloc::Global;

/// A variable of a program, by its number from 0, times a number.
#[derive(Clone, Copy, Debug, PartialEq, Eq)]
pub struct Term {
    /// The number of the variable.
    pub variable: u32,
    /// What it is multiplied by.
    pub times: i64,
}

impl Copies for Term {
    fn copied(&self, _alloc: Global) -> Result<Term, Memory> {
        Ok(*self)
    }
}

/// The terms of a row.
pub type TermList = List<Term>;

/// A row: the constant plus the sum of its terms is at least 0.
#[derive(Debug, Drop)]
pub struct Row {
    /// What stands beside the terms.
    pub constant: i64,
    /// At most one term for each variable.
    pub terms: TermList,
}

impl Copies for Row {
    fn copied(&self, _alloc: Global) -> Result<Row, Memory> {
        let terms = self.terms.copy()?;
        Ok(Row {
            constant: self.constant,
            terms,
        })
    }
}

/// The rows of a program.
pub type RowList = List<Row>;

/// The costs of a program's variables, each 0 or 1.
pub type CostList = List<u8>;

/// Whole numbers, one for each variable of a program.
pub type NumberList = List<u64>;

/// Whole variables from 0 up, each with its cost, and rows over them.
#[derive(Debug, Drop)]
pub struct Program {
    /// The cost of each variable.
    pub costs: CostList,
    /// The rows, those that get multipliers first.
    pub rows: RowList,
    /// How many of the rows get multipliers.
    pub kept: usize,
    pub ghost bounds: { IsProgram costs rows kept } by { Prim.hlevel props },
}

/// Values of a program's variables: each number over the denominator.
#[derive(Debug, Drop)]
pub struct Point {
    /// The number of each variable.
    pub whole: NumberList,
    /// The denominator of all values.
    pub den: u64,
    pub ghost bounds: { IsSmallPoint whole den } by { Prim.hlevel props },
}
