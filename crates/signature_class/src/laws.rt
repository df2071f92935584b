// What holds of classes, signatures and keys by themselves.
ghost use Rattle.std.specs.Prelude.{◌≡◌, ◌≤◌, ◌<◌, ◌+◌, ◌*◌, ◌^◌, ℕ, false, List, [], ◌∷◌, All, if◌then◌else◌};
ghost use Rattle.std.specs.Prelude.{length, map, nat_eq, option_map};
ghost use Rattle.std.specs.Str.{bytes_eq};
ghost use Rattle.ballot_form.specs.Ballots.{AreDistinct};
ghost use Rattle.condorcet_count.specs.Preferences.{prefers};
ghost use Rattle.irv_count.specs.Orders.{holder, member};
ghost use Rattle.signature_class.specs.Classes.{AreClasses, add_all, classes_of};
ghost use Rattle.signature_class.specs.Signatures.{ArePlaces, candidate_at, first_from, signature_of, stands_in_round};
ghost use Rattle.signature_class.specs.Signatures.{HaveBits, cover_key, holds_before, places_key, suffix_key};
ghost use Rattle.signature_class.specs.declared.limits.TheConstants.{MOST_PLACES};

/// Ballots, and numbered keys, are counted in their classes, each once, in the order in which they are first seen. The
/// classes of the ballots by a key are those of the kinds by it.
pub fn classes_are_counted()
    ensures kinds { (rows : List (List ℕ)) → AreClasses rows (classes_of bytes_eq rows) }
    ensures keys { (keys : List ℕ) → AreClasses keys (classes_of nat_eq keys) }
    ensures by_kinds { (key : List ℕ → ℕ) (rows : List (List ℕ)) →
        add_all nat_eq [] (map (λ c. (key c.0, c.1)) (classes_of bytes_eq rows)) ≡ classes_of nat_eq (map key rows) }
{}

/// A signature names who holds the ballot in turn: in each round the candidate at the first of its places that is at
/// least the round, and no one where there is none. Its places are those of the suffix, strictly ascending.
pub fn a_signature_names_the_holders()
    ensures holders { (suffix ballot : List ℕ) (i : ℕ) → AreDistinct suffix → 1 ≤ i →
        holder (stands_in_round suffix i) ballot
        ≡ option_map (candidate_at suffix) (first_from i (signature_of suffix ballot)) }
    ensures places { (suffix ballot : List ℕ) → ArePlaces (length suffix) (signature_of suffix ballot) }
{}

/// Strictly ascending places of a suffix are the signature of the ballot that ranks the candidates there in this order.
pub fn a_list_of_places_is_its_own_signature()
    ensures { (suffix places : List ℕ) → AreDistinct suffix → ArePlaces (length suffix) places →
        signature_of suffix (map (candidate_at suffix) places) ≡ places }
{}

/// Ballots with the same key under a suffix have the same signature, and strictly ascending places a key of their own.
pub fn a_key_tells_the_signature()
    ensures ballots { (suffix ballot other : List ℕ) → length suffix ≤ MOST_PLACES →
        suffix_key suffix ballot ≡ suffix_key suffix other → signature_of suffix ballot ≡ signature_of suffix other }
    ensures places { (places others : List ℕ) → ArePlaces MOST_PLACES places → ArePlaces MOST_PLACES others →
        places_key places ≡ places_key others → places ≡ others }
{}

/// A key under a suffix of m candidates is below 2^m, and one under a cover is below 2^c where all candidates on the
/// ballot are below c.
pub fn keys_fit_their_candidates()
    ensures suffixes { (suffix ballot : List ℕ) → suffix_key suffix ballot < 2 ^ length suffix }
    ensures covers { (c x : ℕ) (ballot : List ℕ) → All (λ y. y < c) ballot → cover_key x ballot < 2 ^ c }
{}

/// Where a candidate is put in front of a suffix, each key moves up by one bit. The lowest bit tells whether the
/// candidate stands on the ballot before all of the suffix that it ranks.
pub fn a_kids_key_is_its_parents_moved_up()
    ensures { (z : ℕ) (suffix ballot : List ℕ) → member z suffix ≡ false → length suffix < MOST_PLACES →
        suffix_key (z ∷ suffix) ballot
        ≡ 2 * suffix_key suffix ballot + (if holds_before z suffix ballot then 1 else 0) }
{}

/// Ballots with the same key under the cover of a candidate prefer the same ones to it, and it to the same ones.
pub fn a_cover_key_tells_the_preferences()
    ensures over { (x j : ℕ) (ballot other : List ℕ) → HaveBits ballot → HaveBits other →
        cover_key x ballot ≡ cover_key x other → prefers ballot j x ≡ prefers other j x }
    ensures under { (x j : ℕ) (ballot other : List ℕ) → HaveBits ballot → HaveBits other →
        cover_key x ballot ≡ cover_key x other → prefers ballot x j ≡ prefers other x j }
{}
