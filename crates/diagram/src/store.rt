//! A diagram is a function store.
ghost use Rattle.diagram.specs.Diagrams.{diagram_meaning};
ghost use Rattle.diagram.specs.Subfunctions.{subfunctions};

use crate::diagram::Diagram;
use crate::link::Link;
use stores::{Operation, Store, StoreFault};

impl Store for Diagram<'_> {
    ghost meaning = { diagram_meaning };

    ghost keeping = { subfunctions };

    fn start(&mut self, inputs: usize) -> Result<(), StoreFault> {
        if inputs == 0 || 12 < inputs {
            return Err(StoreFault::Inputs);
        }
        self.inputs = inputs;
        self.len = 0;
        self.heads = [Link::NONE; 1024];
        Ok(())
    }

    fn variable(&mut self, v: usize) -> Result<usize, StoreFault> {
        if self.inputs < v {
            return Err(StoreFault::Bounds);
        }
        self.node(v, 0, 1)
    }

    fn join(&mut self, op: Operation, f: usize, g: usize) -> Result<usize, StoreFault> {
        self.admit(f)?;
        self.admit(g)?;
        self.join_whole(op, f, g)
    }

    // The complement is the xor with true.
    fn flip(&mut self, f: usize) -> Result<usize, StoreFault> {
        self.admit(f)?;
        self.join_whole(Operation::Xor, f, 1)
    }

    // e is the first variable, so what is left of a function where it is set is held.
    fn fix(&mut self, f: usize, bit: bool) -> Result<usize, StoreFault> {
        self.admit(f)?;
        let (low, high) = self.parts(f, 0);
        Ok(if bit { high } else { low })
    }

    fn value(&self, f: usize, e: bool, a: usize) -> Result<bool, StoreFault> {
        self.admit(f)?;
        if 1 << self.inputs <= a {
            return Err(StoreFault::Bounds);
        }
        let p = if e { (1 << self.inputs) + a } else { a };
        Ok(self.bit(f, p))
    }

    fn length(&self) -> usize {
        self.len + 2
    }

    #[tactic(auto, using(crate::proofs::Rows::functions_length))]
    fn release(&mut self, m: usize) -> Result<(), StoreFault> {
        if m < 2 || self.len + 2 < m {
            return Err(StoreFault::Bounds);
        }
        self.cut(m - 2);
        Ok(())
    }
}
