//! The calls of the tree as a detector.
ghost use Rattle.std.specs.Prelude.{◌≡◌, ◌<◌, ◌↔◌, if◌then◌else◌, Some, None, nat_lt, IsTrue};
ghost use Rattle.detector.specs.Calls.{Opens, Sends, Receives, Idles, Controls};
ghost use Rattle.tree.specs.Steps.{Happens, HasDeficit, at};
ghost use Rattle.tree.specs.Balance.{tree_meaning};
ghost use Rattle.tree.specs.Rightness;

use crate::engagement::{Table, Tree};
use crate::node::{Event, Node, Outcome};
use detector::detector::Detector;
use detector::faults::DetectorFault;
use detector::size::{check_node, check_size};

/// The deficit of a node that can send no more.
const SPENT: u16 = 65535;

impl Tree {
    // The node's record, if it is there.
    fn node(&self, node: u16) -> Option<Node>
        ensures { result ≡ (if nat_lt node self.now.nodes then Some (at self.now node) else None) }
    {
        self.table.records[..usize::from(self.nodes)]
            .get(usize::from(node))
            .copied()
    }

    // Whether the node is there and has messages that are not paid back.
    fn has_deficit(&self, node: u16) -> bool
        ensures { IsTrue result ↔ HasDeficit self.now node }
    {
        self.node(node).is_some_and(|record| record.deficit > 0)
    }

    // Something happens at a node; the answer is a signal to be sent, or nothing.
    fn tell(&mut self, node: u16, event: Event) -> Option<u16>
        requires { node < self.old.nodes }
        ensures { Happens self.old node event result self.new }
    {
        let record = &mut self.table.records[usize::from(node)];
        match record.happen(event)? {
            Outcome::Signal(to) => Some(to),
            Outcome::Left if node == self.root => {
                self.announced = true;
                None
            }
            Outcome::Left => record.parent,
        }
    }

    /// The node whose message engaged this one last; nothing for the root before any, and for a node that was never
    /// engaged or isn't there.
    pub fn engaged_by(&self, node: u16) -> Option<u16>
        ensures { result ≡ (if nat_lt node self.now.nodes then (at self.now node).parent else None) }
    {
        self.node(node).and_then(|record| record.parent)
    }
}

// What each call does is stated here by the tree's own rules, and holds in any state, in balance or not.
impl Detector for Tree {
    ghost meaning = { tree_meaning };

    ghost lawful = { Rightness.lawful };

    fn open(nodes: u16, root: u16) -> Result<Tree, DetectorFault>
        ensures rule { Opens tree_meaning nodes root result }
    {
        check_size(nodes, root)?;
        let mut records = [Node::BLANK; 64];
        records[usize::from(root)] = Node::FIRST;
        Ok(Tree {
            nodes,
            root,
            announced: false,
            table: Table { records },
        })
    }

    fn sent(&mut self, node: u16) -> Result<u16, DetectorFault>
        ensures rule { Sends tree_meaning self.old node result self.new }
    {
        let sender = self.node(node).ok_or(DetectorFault::NoNode)?;
        if !sender.active {
            return Err(DetectorFault::Passive);
        }
        if sender.deficit == SPENT {
            return Err(DetectorFault::Spent);
        }
        self.table.records[usize::from(node)].deficit = sender.deficit + 1;
        Ok(node)
    }

    fn received(&mut self, node: u16, mark: u16) -> Result<Option<u16>, DetectorFault>
        ensures rule { Receives tree_meaning self.old node mark result self.new }
    {
        check_node(self.nodes, node)?;
        if !self.has_deficit(mark) {
            return Err(DetectorFault::BadMark);
        }
        Ok(self.tell(node, Event::Received(mark)))
    }

    fn idled(&mut self, node: u16) -> Result<Option<u16>, DetectorFault>
        ensures rule { Idles tree_meaning self.old node result self.new }
    {
        let record = self.node(node).ok_or(DetectorFault::NoNode)?;
        if !record.active {
            return Err(DetectorFault::Passive);
        }
        Ok(self.tell(node, Event::Idled))
    }

    fn control(&mut self, item: u16) -> Result<Option<u16>, DetectorFault>
        ensures rule { Controls tree_meaning self.old item result self.new }
    {
        if !self.has_deficit(item) {
            return Err(DetectorFault::BadItem);
        }
        Ok(self.tell(item, Event::Control))
    }

    fn is_active(&self, node: u16) -> bool {
        self.node(node).is_some_and(|record| record.active)
    }

    fn is_spent(&self, node: u16) -> bool {
        self.node(node)
            .is_some_and(|record| record.deficit == SPENT)
    }

    fn has_announced(&self) -> bool {
        self.announced
    }
}
