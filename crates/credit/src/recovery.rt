//! The calls of the credit detector.
ghost use Rattle.std.specs.Prelude.{◌≡◌, ℕ, ◌+◌, ◌≤◌, ◌↔◌, true, false, IsTrue, OnOk, slice_index_or};
ghost use Rattle.detector.specs.Calls.{Opens, Sends, Receives, Idles, Controls};
ghost use Rattle.credit.specs.Places.{value, whole, credit_of, carried};
ghost use Rattle.credit.specs.Rules.{held_by};
ghost use Rattle.credit.specs.Meaning.{credit_meaning};
ghost use Rattle.credit.specs.Soundness.{credit_lawful};

use crate::credit::Credit;
use crate::holders::Holders;
use crate::places::Places;
use detector::detector::Detector;
use detector::faults::DetectorFault;
use detector::size::{check_node, check_size};

// The greatest exponent.
const GREATEST: u16 = 1000;

impl Credit {
    /// The exponent that the node holds; nothing for a passive node, and for one that is not there.
    pub fn held(&self, node: u16) -> Option<u16>
        ensures { result ≡ held_by self.now node }
    {
        self.holders.records[..usize::from(self.nodes)]
            .get(usize::from(node))
            .and_then(|record| record.held)
    }

    /// Whether the place is among the recovered ones; none is beyond 1,000.
    pub fn is_recovered(&self, place: u16) -> bool
        ensures { result ≡ slice_index_or self.now.recovered.taken place false }
    {
        self.recovered
            .taken
            .get(usize::from(place))
            .is_some_and(|taken| *taken)
    }
}

// What each call does is stated here by the rules of credit recovery, and holds in any state, in balance or not.
impl Detector for Credit {
    ghost meaning = { credit_meaning };

    ghost lawful = { credit_lawful };

    fn open(nodes: u16, root: u16) -> Result<Credit, DetectorFault>
        ensures rule { Opens credit_meaning nodes root result }
    {
        check_size(nodes, root)?;
        let mut holders = Holders::none();
        holders.hold(root, Some(0));
        Ok(Credit {
            nodes,
            holders,
            recovered: Places::none(),
        })
    }

    fn sent(&mut self, node: u16) -> Result<u16, DetectorFault>
        ensures rule { Sends credit_meaning self.old node result self.new }
    {
        check_node(self.nodes, node)?;
        let exponent = self.held(node).ok_or(DetectorFault::Passive)?;
        if exponent >= GREATEST {
            return Err(DetectorFault::Spent);
        }
        let mark = exponent + 1;
        self.holders.hold(node, Some(mark));
        Ok(mark)
    }

    fn received(&mut self, node: u16, mark: u16) -> Result<Option<u16>, DetectorFault>
        ensures rule { Receives credit_meaning self.old node mark result self.new }
    {
        check_node(self.nodes, node)?;
        if !(1..=GREATEST).contains(&mark) {
            return Err(DetectorFault::BadMark);
        }
        let held = self.held(node);
        self.holders.hold(node, held.or(Some(mark)));
        Ok(held.and(Some(mark)))
    }

    fn idled(&mut self, node: u16) -> Result<Option<u16>, DetectorFault>
        ensures rule { Idles credit_meaning self.old node result self.new }
    {
        check_node(self.nodes, node)?;
        let exponent = self.held(node).ok_or(DetectorFault::Passive)?;
        self.holders.hold(node, None);
        Ok(Some(exponent))
    }

    // Beside the rule: credit at a place that is taken already is carried to the next lower number, the place being cleared;
    // and the value of the recovered places grows by the credit of the item.
    fn control(&mut self, item: u16) -> Result<Option<u16>, DetectorFault>
        ensures rule { Controls credit_meaning self.old item result self.new }
        ensures carries { OnOk result (self.new.recovered.taken ≡ carried self.old.recovered.taken item) }
        ensures sum { OnOk result (value self.new.recovered.taken ≡ value self.old.recovered.taken + credit_of item) }
    {
        if item > GREATEST || !self.recovered.fits(item) {
            return Err(DetectorFault::BadItem);
        }
        self.recovered.add(item);
        Ok(None)
    }

    fn is_active(&self, node: u16) -> bool {
        self.held(node).is_some()
    }

    fn is_spent(&self, node: u16) -> bool {
        self.held(node).is_some_and(|exponent| exponent >= GREATEST)
    }

    // Beside the rule: announced is that one is recovered, and then no other place is taken.
    fn has_announced(&self) -> bool
        ensures place { result ≡ credit_meaning.announced self.now }
        ensures one { IsTrue result ↔ (value self.now.recovered.taken ≡ whole) }
        ensures alone { result ≡ true → (k : ℕ) → 1 ≤ k → slice_index_or self.now.recovered.taken k false ≡ false }
    {
        self.recovered.taken[0]
    }
}
