// Claimed replacements.
use ballot_form::CandList;
use mov_base::{Copies, List, Memory};
use std::alloc::Global;

/// Any claimed replacement: the ballot with this number, from 1, by these candidates, most preferred first.
#[derive(Debug, Drop)]
pub struct Put {
    pub number: u32,
    pub ballot: CandList,
}

/// Claimed replacements, in order.
pub type PutList = List<Put>;

impl Copies for Put {
    fn copied(&self, _alloc: Global) -> Result<Put, Memory> {
        Ok(Put {
            number: self.number,
            ballot: self.ballot.copy()?,
        })
    }
}
