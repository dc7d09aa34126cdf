//! The diagram store: its rows, and the node of a variable and two parts.
ghost use Rattle.std.specs.Prelude.{◌≡◌, ◌<◌, ◌≤◌, min, length};
ghost use Rattle.diagram.specs.Rows.{SoundOf};

use crate::link::Link;
use crate::row::{Node, Row};
use stores::StoreFault;

/// A store that holds each function as a diagram of rows: a row's function is that of its low handle where its variable
/// is 0, and that of its high handle where it is 1. It takes at most 12 inputs, has a place in each of the rows that it
/// is lent, and keeps with a function what is left of it once the first variables are set.
#[derive(Drop)]
pub struct Diagram<'a> {
    pub(crate) rows: &'a mut [Row],
    // the handle of each chain's newest row, in a table of fixed size: the store takes no memory of its own
    pub(crate) heads: [Link; 1024],
    // how many rows are in use, beside them since their memory is lent
    pub(crate) len: usize,
    pub(crate) inputs: usize,
    pub ghost sound: { SoundOf inputs len rows.now heads },
}

impl<'a> Diagram<'a> {
    ghost use Rattle.stores.specs.Meaning.{empty};
    ghost use Rattle.diagram.specs.Rows.{node};
    ghost use Rattle.diagram.specs.Diagrams.{Held, Admits, Later, Parts, Extends, Builds, RefusedInPlace, diagram_meaning, top_of, function_of};

    /// A store over the rows that are lent, of which it uses the first 4096.
    pub fn new(rows: &'a mut [Row]) -> Diagram<'a>
        ensures { diagram_meaning result ≡ empty 12 (min 4096 (length rows.old)) }
    {
        let count = rows.len().min(4096);
        Diagram {
            rows: &mut rows[..count],
            heads: [Link::NONE; 1024],
            len: 0,
            inputs: 0,
        }
    }

    // Refuses a handle that is not held.
    #[tactic(auto, using(crate::proofs::Rows::functions_length))]
    pub(crate) fn admit(&self, h: usize) -> Result<(), StoreFault>
        ensures { Admits self.now h result }
    {
        if h < self.len + 2 {
            Ok(())
        } else {
            Err(StoreFault::Bounds)
        }
    }

    // The variable of a handle's row, or the number after all variables where it is a constant's: it is compared with
    // variables. A method that goes by a handle asks that it is held, since handles are plain numbers.
    pub(crate) fn top(&self, h: usize) -> usize
        requires { Held self.now h }
        ensures { result ≡ top_of self.now h }
    {
        // Handles 0 and 1 are positions in the list that the interface fixes: false and true.
        if h < 2 {
            return self.inputs + 1;
        }
        self.rows[h - 2].node.variable as usize
    }

    // What is left of a handle's function where its first variable or an earlier one, v, is 0 and where it is 1.
    pub(crate) fn parts(&self, h: usize, v: usize) -> (usize, usize)
        requires held { Held self.now h }
        requires known { v ≤ self.now.inputs }
        requires first { v ≤ top_of self.now h }
        ensures { Parts self.now h v result }
    {
        if h < 2 {
            return (h, h);
        }
        let node = self.rows[h - 2].node;
        if node.variable as usize == v {
            (node.low as usize, node.high as usize)
        } else {
            (h, h)
        }
    }

    // Yields the function that is low's where variable v is 0, and high's where it is 1. These are not yet a `Node`: the
    // handles are as the calls give them, and not as a row holds them.
    pub(crate) fn node(&mut self, v: usize, low: usize, high: usize) -> Result<usize, StoreFault>
        requires { Later self.old v low high }
        ensures extends { Extends self.old self.new }
        ensures refused { RefusedInPlace self.old result self.new }
        ensures builds { Builds self.old (node self.old.inputs v (function_of self.old low) (function_of self.old high)) v result self.new }
    {
        if low == high {
            return Ok(low);
        }
        let node = Node {
            variable: v as u8,
            low: low as u16,
            high: high as u16,
        };
        if let Some(h) = self.find(node) {
            return Ok(h);
        }
        if self.rows.len() <= self.len {
            return Err(StoreFault::Places);
        }
        self.append(node);
        Ok(self.len + 1)
    }

    // The bit of a handle's function at a point, going down the diagram by handles.
    pub(crate) fn bit(&self, f: usize, p: usize) -> bool
        requires { Held self.now f }
        ensures { result ≡ function_of self.now f p }
    {
        let mut h = f;
        while h >= 2 {
            let node = self.rows[h - 2].node;
            let set = (p >> (self.inputs - node.variable as usize)) % 2 == 1;
            h = if set {
                node.high as usize
            } else {
                node.low as usize
            };
        }
        h == 1
    }
}
