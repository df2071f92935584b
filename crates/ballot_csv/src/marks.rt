// Byte order marks.
ghost use Rattle.std.specs.Prelude.{◌≡◌};
ghost use Rattle.ballot_csv.specs.Marks as spec;

const MARK: [u8; 3] = [0xEF, 0xBB, 0xBF];

/// The bytes after every byte order mark that stands at the start.
#[tactic(auto, using(crate::proofs::MarkFacts::one_mark_less, crate::proofs::MarkFacts::no_mark))]
pub(crate) fn without_marks(bytes: &[u8]) -> &[u8]
    ensures { result.now ≡ spec.without_marks bytes.now }
{
    let mut rest = bytes;
    while rest.starts_with(&MARK) {
        rest = rest.split_at(MARK.len()).1;
    }
    rest
}
