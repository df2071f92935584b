//! What a search for the margin knows at each of its turns.
//!
//! A search grows a tree of bounds from the root: the first leaf with the least bound is split by the cover of its goal,
//! or branched by a feature. The definitions say what is asked of its tree (`specs/Trees.antt`: each cut is tight, and no
//! split or branch is for nothing) and where it ends (`specs/Ends.antt`); `specs/Leaves.antt` has what it knows of its
//! leaves in between. Laws say that one turn keeps this and lowers no bound, that the tree proves the least bound and is
//! tight, and that a search has one end. The crate has no code: the searches are to stand on it.
#![tactic(auto)]

mod laws;

pub use laws::{a_search_has_one_end, a_search_proves_its_least_bound, a_turn_keeps_what_is_known};
