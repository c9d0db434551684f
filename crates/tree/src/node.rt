//! One node of the engagement tree: its record, and what happens to it.
ghost use Rattle.std.specs.Prelude.{◌≡◌};
ghost use Rattle.tree.specs.Rules.{after, outcome, settled, done};

/// One node's record.
#[derive(Clone, Copy, Debug, PartialEq, Eq, Hash)]
pub struct Node {
    pub active: bool,
    /// Whether the node is in the tree.
    pub engaged: bool,
    /// The node whose message engaged it last.
    pub parent: Option<u16>,
    /// How many of its messages have not been paid back by a signal.
    pub deficit: u16,
}

/// What happens at a node.
#[derive(Clone, Copy, Debug, PartialEq, Eq, Hash)]
pub enum Event {
    /// A message with this mark arrives.
    Received(u16),
    /// The node has nothing more to do.
    Idled,
    /// A signal arrives.
    Control,
}

/// What may come of it.
#[derive(Clone, Copy, Debug, PartialEq, Eq, Hash)]
pub enum Outcome {
    /// A signal goes to this node.
    Signal(u16),
    /// The node has left the tree.
    Left,
}

impl Node {
    /// A node that has not been engaged yet.
    pub const BLANK: Node = Node {
        active: false,
        engaged: false,
        parent: None,
        deficit: 0,
    };

    /// The root when the tree is opened.
    pub const FIRST: Node = Node {
        active: true,
        engaged: true,
        parent: None,
        deficit: 0,
    };

    /// What happens depends on the node's state and the event together; the answer is what comes of it, if anything.
    pub fn happen(&mut self, event: Event) -> Option<Outcome>
        ensures state { self.new ≡ after self.old event }
        ensures answer { result ≡ outcome self.old event }
    {
        match (self.engaged, event) {
            (true, Event::Received(mark)) => {
                self.active = true;
                Some(Outcome::Signal(mark))
            }
            (false, Event::Received(mark)) => {
                self.active = true;
                self.engaged = true;
                self.parent = Some(mark);
                None
            }
            (_, Event::Idled) => {
                self.active = false;
                self.settle().then_some(Outcome::Left)
            }
            (_, Event::Control) => {
                self.deficit = self.deficit.saturating_sub(1);
                self.settle().then_some(Outcome::Left)
            }
        }
    }

    // An engaged, passive node that is owed nothing leaves the tree; the answer is whether it did.
    fn settle(&mut self) -> bool
        ensures state { self.new ≡ settled self.old }
        ensures answer { result ≡ done self.old }
    {
        let leaves = self.engaged && !self.active && self.deficit == 0;
        if leaves {
            self.engaged = false;
        }
        leaves
    }
}
