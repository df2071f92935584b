// The fields of a line, one after another.
ghost use Rattle.std.specs.Prelude.{◌≡◌, ◌+◌, ◌==◌, ◌≤◌, ◌<◌, ◌++◌, [], ◌∷◌, length, slice_range, IfSome, IfNone, MatchOption, IsTrue, IsNone, ◌↔◌, false};
ghost use Rattle.std.specs.List.{position};
ghost use Rattle.text_lines.specs.Words.{fields_of, ahead};

use std::marker::Model;

/// A field of a line.
#[derive(Clone, Copy)]
pub struct Field<'a> {
    /// The bytes of the field, lent from the line.
    pub text: &'a [u8],
    /// Where it starts in the line, from 0.
    pub start: usize,
}

/// The fields of a line that are still to come. Contracts see the line, where the next field starts, and whether none is left.
#[derive(Drop)]
pub struct Fields<'a> {
    line: &'a [u8],
    start: usize,
    done: bool,
}

impl<'a> Model for Fields<'a> {
    ghost use Rattle.std.specs.Prelude.{◌≤◌, ◌<◌, ◌^◌, length};
    ghost use Rattle.text_lines.specs.Words.{Walk};

    ghost Value = { Walk };

    ghost view = { λ f. record { line = f.line.now; start = f.start; done = f.done } };

    ghost invariant = { λ f. (f.start ≤ length f.line.now) × (length f.line.now < 2 ^ 63) };
}

/// The place of the first space.
fn first_space(text: &[u8]) -> Option<usize>
    ensures { result ≡ position (λ b. b == 32) text.now }
{
    text.iter().position(|b| *b == b' ')
}

impl<'a> Fields<'a> {
    /// All the fields of a line.
    pub(crate) fn of_line(line: &'a [u8]) -> Fields<'a>
        ensures line { result.line ≡ line.now }
        ensures start { result.start ≡ 0 }
        ensures ahead { ahead result ≡ fields_of line.now }
    {
        Fields {
            line,
            start: 0,
            done: false,
        }
    }

    /// How many fields are still to come. It takes no memory.
    #[tactic(auto, using(crate::proofs::Cutting::ahead_room))]
    pub fn left(&self) -> usize
        ensures { result ≡ length (ahead self.now) }
    {
        let mut walk = Fields {
            line: self.line,
            start: self.start,
            done: self.done,
        };
        let mut count = 0;
        while let Some(_field) = walk.next() {
            count += 1;
        }
        count
    }

    /// The next field, and none exactly after the last. The one after it starts behind the space that ends it. It takes no
    /// memory.
    pub fn next(&mut self) -> Option<Field<'a>>
        ensures next { MatchOption result ((ahead self.old ≡ []) × (ahead self.new ≡ []))
            (λ f. ahead self.old ≡ f.text.now ∷ ahead self.new) }
        ensures span { IfSome result
            (λ f. f.text.now ≡ slice_range self.old.line f.start (f.start + length f.text.now)) }
        ensures start { IfSome result (λ f. f.start ≡ self.old.start) }
        ensures line { self.new.line ≡ self.old.line }
        ensures rises { IfSome result (λ f. self.new.done ≡ false → self.new.start ≡ f.start + length f.text.now + 1) }
        ensures ended { IsTrue self.new.done → self.new.start ≡ self.old.start }
    {
        if self.done {
            return None;
        }
        let start = self.start;
        let rest = &self.line[start..];
        match first_space(rest) {
            Some(len) => {
                self.start = start + len + 1;
                Some(Field {
                    text: &rest[..len],
                    start,
                })
            }
            None => {
                self.done = true;
                Some(Field { text: rest, start })
            }
        }
    }
}
