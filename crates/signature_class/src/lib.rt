//! Classes of ballots, and signatures.
//!
//! Whatever depends on a ballot's class alone needs to be looked at once for each class and not for each ballot.
//! `kinds` counts the distinct ballots of a roll, which it borrows from it, and `first_kinds` their first candidates
//! alone; `Classes` counts numbered keys. Both keep their classes in the order in which they are first seen, and every
//! sum over the ballots is a sum over the classes.
//!
//! Where the candidates of a suffix go out in its order, the `signature` of a ballot names who holds it in turn. Under
//! a suffix, and under the cover of a candidate, a ballot has a key, a number whose bits stand for a set;
//! `suffix_classes` and `cover_classes` count the ballots by it. The key tells all that a row of such a goal looks at,
//! by laws of this crate.
//!
//! The crate stands on `ballot_form`, and on the holders of `irv_count` and the preferences of `condorcet_count`; maps
//! are from `indexmap`, short lists from `smallvec`.
#![tactic(auto)]

mod classes;
mod grouped;
mod keys;
mod laws;
mod limits;
pub mod parts;
mod places;
mod rolls;

pub use classes::Classes;
pub use grouped::{cover_classes, suffix_classes};
pub use keys::{cover_key, signature_key, suffix_key};
pub use laws::{
    a_cover_key_tells_the_preferences, a_key_tells_the_signature,
    a_kids_key_is_its_parents_moved_up, a_list_of_places_is_its_own_signature,
    a_signature_names_the_holders, classes_are_counted, keys_fit_their_candidates,
};
pub use limits::MOST_PLACES;
pub use places::{Places, signature};
pub use rolls::{first_kinds, kinds};
