//! D'Hondt: how many ballots each party leads, and the seats that these votes give.
//!
//! A party's quotients are its votes divided by 1, 2, 3 and so on. The reported seats are those of the highest quotients of all
//! parties, the lower-numbered party first among equals; they are served one after another, and the whole is proved to be what
//! counting the quotients gives. An allocation is any sharing of the seats in which no party's last quotient is below another one's
//! next: the reported seats are one, and `is_allocation` tells one from others. The crate stands on `ballot_form`.
#![tactic(auto)]

mod allocation;
mod serving;
mod votes;

pub use allocation::is_allocation;
pub use serving::seats;
pub use votes::party_votes;
