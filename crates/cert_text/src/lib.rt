//! Certificates as text, in both directions.
//!
//! A certificate says what is claimed of a contest, the goal and the replacements that turn its outcome, and the tree of
//! bounds by which fewer don't. The grammar is a relation between bytes and certificates (`specs/CertText.antt`). The crate
//! promises that `read_cert` answers the certificate exactly where the text is in the grammar, and otherwise the first fault
//! with its line; that `print_cert` writes the text of a certificate within the limits; that one text has one certificate
//! and one certificate one text. The calls of `written` add single lines, for other texts that have the same ones. The crate
//! stands on the rules and outcomes of `ballot_form`, the replacements of `alteration_model`, the trees of `bound_tree`, the
//! size of a wide number of `exact_num` and the lines of `text_lines`.
#![tactic(auto)]

mod cert;
mod cert_read;
mod fault;
mod head_line;
mod laws;
mod limits;
mod printable;
mod reader;
mod tree_limits;
mod tree_line;
mod tree_read;
mod tree_write;
mod turn_line;
mod write;
pub mod written;

pub use cert::{Cert, Claim, GoalText, Stop};
pub use cert_read::read_cert;
pub use fault::{CertFault, CertKind};
pub use laws::a_certificate_has_one_text;
pub use limits::{
    GREATEST_CANDIDATE, GREATEST_KEY, GREATEST_MULTIPLIER, GREATEST_VALUE, LAST_ENTERED, LAST_LEFT,
    LONGEST_TEXT, MOST_BUDGET, MOST_MULTIPLIERS,
};
pub use printable::is_printable;
pub use text_lines::{fields, parts};
pub use write::print_cert;
