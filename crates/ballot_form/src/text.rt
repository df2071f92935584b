// Texts and lists of them.
ghost use Rattle.std.specs.Prelude.{◌≡◌, IfOk};

use mov_base::{Copies, List, Memory};
use std::alloc::Global;
use std::marker::Model;

/// A text that contracts see as its bytes.
#[derive(Debug, Drop)]
pub struct Text {
    text: String,
}

impl Model for Text {
    ghost use Rattle.std.specs.Prelude.{List, ℕ, string_bytes};

    ghost Value = { List ℕ };

    ghost view = { λ t. string_bytes t.text };
}

/// The names of the candidates, in the order of their numbers.
pub type Names = List<Text>;

impl Text {
    /// A text of the same bytes.
    pub fn of(alloc: Global, text: &str) -> Result<Text, Memory>
        ensures { IfOk result (λ copy. copy ≡ text.now) }
    {
        let text = String::from_str(alloc, text)?;
        Ok(Text { text })
    }

    /// Lends the text.
    pub fn as_str(&self) -> &str
        ensures { result.now ≡ self.now }
    {
        self.text.as_str()
    }

    /// An equal text.
    pub fn copy(&self) -> Result<Text, Memory>
        ensures { IfOk result (λ copy. copy ≡ self.now) }
    {
        let alloc = *self.text.allocator();
        Text::of(alloc, self.text.as_str())
    }
}

impl Copies for Text {
    fn copied(&self, _alloc: Global) -> Result<Text, Memory> {
        self.copy()
    }
}
