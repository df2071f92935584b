// The names of the candidates, to be found.
ghost use Rattle.std.specs.Prelude.{◌≡◌, [], ◌++◌, ◌∷◌, length, IfOk, IfSome, MatchBool, position, true, false, ◌<◌};
ghost use Rattle.std.specs.List.{list_any};
ghost use Rattle.std.specs.Str.{bytes_eq};
ghost use Rattle.ballot_csv.specs.OneRecord.{candidate_named};

use ballot_form::{Cand, MOST_CANDIDATES};
use mov_base::Memory;
use std::alloc::Global;
use std::hash::{FoldHasher, Hasher};
use std::marker::Model;

/// The names of the candidates, found by their bytes. For each hash it has one candidate, whose name is compared first.
#[derive(Drop)]
pub(crate) struct NameIndex<'a> {
    names: Vec<&'a [u8]>,
    guesses: [Cand; 256],
}

impl<'a> Model for NameIndex<'a> {
    ghost use Rattle.std.specs.Prelude.{ℕ, List, AllPairs, map, length, ◌≢◌, ◌≤◌};
    ghost use Rattle.ballot_form.specs.declared.limits.TheConstants.{MOST_CANDIDATES};

    ghost Value = { List (List ℕ) };

    ghost view = { λ r. map (λ n. n.now) r.names.items };

    ghost invariant = { λ r. (length r.names.items ≤ MOST_CANDIDATES)
        × AllPairs (λ x y. x ≢ y) (map (λ n. n.now) r.names.items) };
}

impl<'a> NameIndex<'a> {
    /// No names.
    pub(crate) fn new(alloc: Global) -> NameIndex<'a>
        ensures { result ≡ [] }
    {
        NameIndex {
            names: Vec::new(alloc),
            guesses: [0; 256],
        }
    }

    /// The number of the candidate with this name.
    pub(crate) fn candidate_named(&self, name: &[u8]) -> Option<Cand>
        ensures candidate { result ≡ candidate_named self.now name.now }
        ensures within { IfSome result (λ i. i < length self.now) }
    {
        let guess = self.guesses[usize::from(hash_of(name))];
        match self.names.get(usize::from(guess)) {
            Some(found) if *found == name => Some(guess),
            _ => self.search(name),
        }
    }

    /// The same, by a comparison with one name after another.
    fn search(&self, name: &[u8]) -> Option<Cand>
        ensures candidate { result ≡ candidate_named self.now name.now }
        ensures within { IfSome result (λ i. i < length self.now) }
    {
        match place_of(name, self.names.as_slice()) {
            Some(place) => Some(place as Cand),
            None => None,
        }
    }

    /// Adds a name at the end, and tells whether it wasn't there.
    pub(crate) fn add(&mut self, name: &'a [u8]) -> Result<bool, Memory>
        requires { length self.old < MOST_CANDIDATES }
        ensures added { IfOk result (λ added. MatchBool added
            ((list_any (bytes_eq name.now) self.old ≡ false) × (self.new ≡ self.old ++ name.now ∷ []))
            (list_any (bytes_eq name.now) self.old ≡ true)) }
    {
        if self.names.contains(&name) {
            return Ok(false);
        }
        self.guesses[usize::from(hash_of(name))] = self.names.len() as Cand;
        self.names.push(name)?;
        Ok(true)
    }
}

/// The place of a name among others.
fn place_of(name: &[u8], names: &[&[u8]]) -> Option<usize>
    ensures { result ≡ position (λ other. bytes_eq name.now other.now) names.now }
{
    names.iter().position(|other| name == *other)
}

/// A number that is likely to tell names apart.
fn hash_of(name: &[u8]) -> u8 {
    let mut hasher = FoldHasher::default();
    hasher.write(name);
    let [first, ..] = hasher.finish().to_be_bytes();
    first
}
