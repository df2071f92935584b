// Memory that is lent from one form to the next.
ghost use Rattle.std.specs.Prelude.{◌≡◌, [], pos, replicate, IfOk};

use crate::short::Short;
use mov_base::Memory;
use std::alloc::Global;

/// The memory of a form that is used no more, for a form to come. Nothing depends on what it keeps.
#[derive(Debug, Drop)]
pub struct Room {
    pub(crate) short: Short,
    pub(crate) spare: Vec<Vec<i64>>,
    pub(crate) lead: Vec<i64>,
    pub(crate) scratch: Vec<i128>,
    pub(crate) whole_lead: Vec<i64>,
    pub(crate) whole_row: Vec<i64>,
    pub(crate) whole_scratch: Vec<i128>,
}

impl Room {
    /// No memory yet. It takes none.
    pub fn new(alloc: Global) -> Room {
        Room {
            short: Short {
                width: 0,
                basics: Vec::new(alloc),
                places: Vec::new(alloc),
                pairs: Vec::new(alloc),
                rows: Vec::new(alloc),
            },
            spare: Vec::new(alloc),
            lead: Vec::new(alloc),
            scratch: Vec::new(alloc),
            whole_lead: Vec::new(alloc),
            whole_row: Vec::new(alloc),
            whole_scratch: Vec::new(alloc),
        }
    }
}

/// The vector, emptied, with room for so many values.
pub(crate) fn emptied<T: Drop>(mut values: Vec<T>, count: usize) -> Result<Vec<T>, Memory>
    ensures { IfOk result (λ made. made.items ≡ []) }
{
    values.clear();
    values.reserve(count)?;
    Ok(values)
}

/// The vector with so many times the value, in place of what it held.
pub(crate) fn filled<T: Copy>(mut values: Vec<T>, value: T, count: usize) -> Result<Vec<T>, Memory>
    ensures { IfOk result (λ made. made.items ≡ replicate count value) }
{
    values.clear();
    values.resize(count, value)?;
    Ok(values)
}

/// So many zeros, in a vector of the spare ones, if there is one.
pub(crate) fn zeros(
    alloc: Global,
    spare: &mut Vec<Vec<i64>>,
    count: usize,
) -> Result<Vec<i64>, Memory>
    ensures { IfOk result (λ made. made.items ≡ replicate count (pos 0)) }
{
    let values = match spare.pop() {
        Some(values) => values,
        None => Vec::new(alloc),
    };
    filled(values, 0, count)
}
