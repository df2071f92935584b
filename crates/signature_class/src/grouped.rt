// The classes of ballots by the keys of goals.
ghost use Rattle.std.specs.Prelude.{◌≡◌, ◌≤◌, ℕ, List, IfOk, length};
ghost use Rattle.signature_class.specs.Classes.{classes_by as classes_of_kinds};
ghost use Rattle.signature_class.specs.Signatures.{cover_key as key_under_cover, suffix_key as key_under_suffix};
ghost use Rattle.signature_class.specs.declared.limits.TheConstants.{MOST_PLACES};

use crate::classes::Classes;
use crate::keys::{cover_key, suffix_key};
use crate::parts::Kinds;
use ballot_form::Cand;
use mov_base::Memory;
use std::alloc::Global;

/// The classes of the ballots by their keys under a suffix of at most 40 candidates, in the order in which they are
/// first seen. Each kind is looked at once.
pub fn suffix_classes(alloc: Global, kinds: &Kinds<'_>, suffix: &[Cand]) -> Result<Classes, Memory>
    requires { length suffix.now ≤ MOST_PLACES }
    ensures { IfOk result (λ classes. classes ≡ classes_of_kinds (key_under_suffix suffix.now) kinds.now) }
{
    classes_by(alloc, kinds, |row| suffix_key(row, suffix))
}

/// The classes of the ballots by their keys under the cover of `x`, in the order in which they are first seen. Each
/// kind is looked at once.
pub fn cover_classes(alloc: Global, kinds: &Kinds<'_>, x: Cand) -> Result<Classes, Memory>
    ensures { IfOk result (λ classes. classes ≡ classes_of_kinds (key_under_cover x) kinds.now) }
{
    classes_by(alloc, kinds, |row| cover_key(row, x))
}

/// The classes of the ballots by what `key` makes of them.
fn classes_by<F: Fn(&[Cand]) -> u64>(
    alloc: Global,
    kinds: &Kinds<'_>,
    key: F,
) -> Result<Classes, Memory>
    requires { F.IsAlwaysCallable key }
    ensures { (value : List ℕ → ℕ) → ((row : _) (k : ℕ) → F.post key row k → k ≡ value row.now)
        → IfOk result (λ classes. classes ≡ classes_of_kinds value kinds.now) }
{
    let mut classes = Classes::new(alloc);
    for i in 0..kinds.len() {
        classes.add(key(kinds.row(i)), kinds.count(i))?;
    }
    Ok(classes)
}
