//! The word store.
ghost use Rattle.std.specs.Prelude.{◌≡◌, ◌+◌, ◌^◌, ◌<◌, min, [], ◌∷◌, length, position, ◌==◌};
ghost use Rattle.stores.specs.Functions.{points};
ghost use Rattle.stores.specs.Meaning.{Yields, empty};
ghost use Rattle.stores.specs.Words.{of_word, alone, SoundOf, Found, Reads};

mod bits;

use crate::fault::StoreFault;
use crate::operation::Operation;
use crate::store::Store;
use bits::{combined, full, repeated, stripes};

/// A store that holds each function as the bits of one word: bit e·2^n + a at e and assignment a. It takes at most 5
/// inputs, has a place in each of the words that it is lent, and keeps each function alone.
#[derive(Drop)]
pub struct Words<'a> {
    // The first len of the lent words are in use: a store takes no memory of its own.
    words: &'a mut [u64],
    len: usize,
    inputs: usize,
    pub ghost sound: { SoundOf inputs len words.now },
}

impl<'a> Words<'a> {
    ghost use Rattle.stores.specs.WordStore.{words_meaning};

    /// A store over the words that are lent, of which it uses the first 4096.
    pub fn new(words: &'a mut [u64]) -> Words<'a>
        ensures { words_meaning result ≡ empty 5 (min 4096 (length words.old)) }
    {
        let count = words.len().min(4096);
        Words {
            words: &mut words[..count],
            len: 0,
            inputs: 0,
        }
    }

    // The word of a handle, which is refused with 15 where it is not held.
    fn word(&self, h: usize) -> Result<u64, StoreFault>
        ensures { Reads (words_meaning self.now) h result }
    {
        // Handles 0 and 1 are positions in the list that the interface fixes: false and true.
        match h {
            0 => Ok(0),
            1 => Ok(full(self.inputs)),
            _ => self.words[..self.len]
                .get(h - 2)
                .copied()
                .ok_or(StoreFault::Bounds),
        }
    }

    // The handle of a word's function, if it is held. Callers give words without a bit past the store's points: a type of
    // such words would have to hold the number of inputs, which the store holds already.
    fn find(&self, w: u64) -> Option<usize>
        requires fits { w < 2 ^ points self.now.inputs }
        ensures { Found (words_meaning self.now) (of_word w) result }
    {
        if w == 0 {
            return Some(0);
        }
        if w == full(self.inputs) {
            return Some(1);
        }
        position_of(&self.words[..self.len], w).map(|i| i + 2)
    }

    // Yields a word's function: found, refused, or put behind the others, as `Diagram::node` does by functions of its own.
    fn keep(&mut self, w: u64) -> Result<usize, StoreFault>
        requires fits { w < 2 ^ points self.old.inputs }
        ensures makes { Yields alone (words_meaning self.old) (Unit {0}) (of_word w ∷ []) (of_word w) result (words_meaning self.new) }
    {
        if let Some(h) = self.find(w) {
            return Ok(h);
        }
        if self.words.len() <= self.len {
            return Err(StoreFault::Places);
        }
        self.words[self.len] = w;
        self.len += 1;
        Ok(self.len + 1)
    }
}

// The first position of a word among words.
fn position_of(words: &[u64], w: u64) -> Option<usize>
    ensures { result ≡ position (λ x. x == w) words.now }
{
    words.iter().position(|x| *x == w)
}

// The diagram store is made, begins, tells a bit, counts and cuts in the same way, each over its own memory and limits: a
// trait between the two would hold more than it saves.
impl Store for Words<'_> {
    ghost use Rattle.stores.specs.WordStore.{words_meaning};

    ghost meaning = { words_meaning };

    ghost keeping = { alone };

    fn start(&mut self, inputs: usize) -> Result<(), StoreFault> {
        if inputs == 0 || 5 < inputs {
            return Err(StoreFault::Inputs);
        }
        self.inputs = inputs;
        self.len = 0;
        Ok(())
    }

    fn variable(&mut self, v: usize) -> Result<usize, StoreFault> {
        if self.inputs < v {
            return Err(StoreFault::Bounds);
        }
        let w = stripes(self.inputs - v) & full(self.inputs);
        self.keep(w)
    }

    fn join(&mut self, op: Operation, f: usize, g: usize) -> Result<usize, StoreFault> {
        let x = self.word(f)?;
        let y = self.word(g)?;
        let w = combined(op, x, y);
        self.keep(w)
    }

    fn flip(&mut self, f: usize) -> Result<usize, StoreFault> {
        let w = self.word(f)? ^ full(self.inputs);
        self.keep(w)
    }

    fn fix(&mut self, f: usize, bit: bool) -> Result<usize, StoreFault> {
        let w = repeated(self.inputs, self.word(f)?, bit);
        self.keep(w)
    }

    fn value(&self, f: usize, e: bool, a: usize) -> Result<bool, StoreFault> {
        let w = self.word(f)?;
        if 1 << self.inputs <= a {
            return Err(StoreFault::Bounds);
        }
        let p = if e { (1 << self.inputs) + a } else { a };
        Ok((w >> p) % 2 == 1)
    }

    #[tactic(auto, using(crate::proofs::Listed::good_words, crate::proofs::Alone::alone_keeps))]
    fn length(&self) -> usize {
        self.len + 2
    }

    fn release(&mut self, m: usize) -> Result<(), StoreFault> {
        if m < 2 || self.len + 2 < m {
            return Err(StoreFault::Bounds);
        }
        self.len = m - 2;
        Ok(())
    }
}
