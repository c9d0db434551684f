//! The parts of a session.

/// The three tables of a session file.
#[derive(Clone, Copy, Debug, PartialEq, Eq, Hash)]
pub enum Table {
    Settings,
    Links,
    Steps,
}

/// What a label measures.
#[derive(Clone, Copy, Debug, PartialEq, Eq, Hash)]
pub enum Kind {
    Cost,
    Width,
}

/// The termination detector.
#[derive(Clone, Copy, Debug, PartialEq, Eq, Hash)]
pub enum Detector {
    Tree,
    Credit,
}

/// The order in which waiting messages are taken.
#[derive(Clone, Copy, Debug, PartialEq, Eq, Hash)]
pub enum Channel {
    Queue,
    Stack,
    Picked,
}

/// The settings of a session: the first table.
#[derive(Clone, Copy, Debug, PartialEq, Eq, Hash)]
pub struct Setting {
    pub nodes: u8,
    pub root: u8,
    pub kind: Kind,
    pub detector: Detector,
    pub channel: Channel,
}

/// What a step does.
#[derive(Clone, Copy, Debug, PartialEq, Eq, Hash)]
pub enum Action {
    Deliver,
    Work,
    Control,
}

/// A step: the action, and its pick (for work, the node).
#[derive(Clone, Copy, Debug, PartialEq, Eq, Hash)]
pub struct Step {
    pub action: Action,
    pub pick: u16,
}
