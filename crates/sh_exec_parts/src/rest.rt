//! What is left of a text.
ghost use Rattle.std.specs.Prelude.{◌≡◌, drop};

use sh_base::sequence::Text;
use std::marker::Model;

/// The bytes of a text from some place on.
#[derive(Debug, Drop)]
pub struct Rest {
    text: Text,
    at: usize,
}

impl Model for Rest {
    ghost use Rattle.std.specs.Prelude.{List, ℕ, drop, length, ◌≤◌};

    ghost Value = { List ℕ };

    ghost view = { λ r. drop r.at r.text };

    ghost invariant = { λ r. r.at ≤ length r.text };
}

impl Rest {
    /// The whole text.
    pub fn new(text: Text) -> Self
        ensures { result ≡ text }
    {
        Rest { text, at: 0 }
    }

    /// The bytes that are left, lent.
    pub fn as_slice(&self) -> &[u8]
        ensures { result.now ≡ self.now }
    {
        &self.text.as_slice()[self.at..]
    }

    /// Leaves out the next bytes, or all that there are.
    pub fn skip(&mut self, count: usize)
        ensures { self.new ≡ drop count self.old }
    {
        let len = self.text.len();
        if count < len - self.at {
            self.at += count;
        } else {
            self.at = len;
        }
    }
}
