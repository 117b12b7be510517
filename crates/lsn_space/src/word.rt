//! A word of the command line.
ghost use Rattle.std.specs.Prelude.{◌≡◌, IfOk, map, string_bytes};
ghost use Rattle.std.specs.Vec.Iter.{into_iter_items};

use crate::memory::NoMemory;
use std::alloc::Global;
use std::convert::AsStr;
use std::env::Args;
use std::marker::Model;

/// A word of the command line. Contracts see its bytes, which are UTF-8.
#[derive(Drop)]
pub struct Word {
    text: String,
}

impl Model for Word {
    ghost use Rattle.std.specs.Prelude.{ℕ, List, string_bytes};

    ghost Value = { List ℕ };

    ghost view = { λ word. string_bytes word.text };
}

impl Word {
    /// A word with this text.
    pub fn make(alloc: Global, text: &str) -> Result<Word, NoMemory>
        ensures { IfOk result (λ word. word ≡ text.now) }
    {
        match String::from_str(alloc, text) {
            Ok(text) => Ok(Word { text }),
            Err(_) => Err(NoMemory),
        }
    }

    /// A word for each string, in their order.
    pub fn each(alloc: Global, strings: Args) -> Result<Vec<Word>, NoMemory>
        ensures { IfOk result (λ words. words.items ≡ map string_bytes (into_iter_items strings)) }
    {
        let mut words = Vec::new(alloc);
        'strings: for string in strings {
            let word = Word::make(alloc, string.as_str())?;
            words.push(word).map_err(|_| NoMemory)?;
        }
        Ok(words)
    }

    /// The text that it was made with.
    pub fn text(&self) -> &str
        ensures { result.now ≡ self.now }
    {
        self.text.as_str()
    }
}

impl AsStr for Word {
    ghost text = { λ word. word };

    fn as_str(&self) -> &str {
        self.text.as_str()
    }
}
