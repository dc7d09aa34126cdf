//! The chains by which the row with a node is found: each row is linked to the newest earlier row of its chain, and
//! each chain has a head, its newest row.
ghost use Rattle.std.specs.Prelude.{◌≡◌, ◌≢◌, ◌<◌, ◌≤◌, length, None};
ghost use Rattle.diagram.specs.Chains.{chain};
ghost use Rattle.diagram.specs.Diagrams.{Standing, Later, Appended, Cut};

use crate::diagram::Diagram;
use crate::link::Link;
use crate::row::{Node, Row};

// The chain of a row with this node.
fn chain_of(node: Node) -> usize
    ensures { (result ≡ chain node) × (result < 1024) }
{
    (node.variable as usize + 31 * node.low as usize + 509 * node.high as usize) % 1024
}

impl Diagram<'_> {
    // The handle of the row with this node, if it stands among the rows.
    pub(crate) fn find(&self, node: Node) -> Option<usize>
        ensures { Standing self.now node result }
    {
        let mut link = self.heads[chain_of(node)].handle();
        while let Some(h) = link {
            let row = self.rows[h as usize - 2];
            if row.node == node {
                return Some(h as usize);
            }
            link = row.next.handle();
        }
        None
    }

    // Puts a row with this node, of which none stands among the rows, behind the others, at the head of its chain.
    pub(crate) fn append(&mut self, node: Node)
        requires room { self.old.len < length self.old.rows.now }
        requires later { Later self.old node.variable node.low node.high }
        requires differ { node.low ≢ node.high }
        requires fresh { Standing self.old node None }
        ensures { Appended self.old node self.new }
    {
        let len = self.len;
        let b = chain_of(node);
        let next = self.heads[b];
        self.rows[len] = Row { node, next };
        self.heads[b] = Link::to((len + 2) as u16);
        self.len = len + 1;
    }

    // Takes the newest rows off the heads of their chains, down to the first `to`.
    pub(crate) fn cut(&mut self, to: usize)
        requires { to ≤ self.old.len }
        ensures { Cut self.old to self.new }
    {
        // By places from the newest row down: over the rows themselves the length could not follow at each turn, and the
        // store's fact would not hold there.
        for k in (to..self.len).rev() {
            let row = self.rows[k];
            self.heads[chain_of(row.node)] = row.next;
            self.len = k;
        }
    }
}
