//! Making meshes: rule by rule, in the order of a session file.
ghost use Rattle.std.specs.Prelude.{◌≡◌, ◌+◌, ◌*◌, ◌≤◌, [], ◌∷◌, ◌++◌, length, IfOk, vec_capacity, IsTrue, MatchResult, ◌↔◌, nat_le};
ghost use Rattle.fault.specs.Checks.{Passes, Fails};
ghost use Rattle.mesh.specs.Rules.{InRange};
ghost use Rattle.mesh.specs.Checks.{link_fault_number, mesh_fault_number, link_checks, root_checks, mesh_checks};

use crate::link::{Link, LinkFault, MeshFault};
use crate::mesh::{LinkRoom, Mesh};
use std::alloc::{AllocError, Global};

/// The most nodes a mesh may have.
pub const MAX_NODES: u8 = 64;

/// The most links a mesh may have.
pub const MAX_LINKS: usize = 512;

// The index of pairs is a square of this side.
const SIDE: usize = 64;

const PAIRS: usize = 4096;

impl LinkFault {
    /// The number of the rule that is broken.
    pub fn number(self) -> u8
        ensures { result ≡ link_fault_number self }
    {
        self as u8
    }
}

impl MeshFault {
    /// The number of the rule that is broken.
    pub fn number(self) -> u8
        ensures { result ≡ mesh_fault_number self }
    {
        match self {
            MeshFault::Nodes => 4,
            MeshFault::Root => 4,
            MeshFault::BadLink(_, fault) => fault.number(),
        }
    }
}

impl LinkRoom {
    /// Reserves room for as many links as a mesh may have.
    pub fn reserve(heap: Global) -> Result<LinkRoom, AllocError>
        ensures { IfOk result (λ room. (room.links.items ≡ []) × (512 ≤ vec_capacity room.links)) }
    {
        let links = Vec::with_capacity(heap, MAX_LINKS)?;
        let taken = vec![in heap; false; PAIRS]?;
        Ok(LinkRoom { links, taken })
    }
}

// Whether the numbers of a link fit a mesh of that many nodes.
fn in_range(nodes: u8, link: Link) -> bool
    ensures { IsTrue result ↔ InRange nodes link }
{
    link.from < nodes && link.to < nodes && link.width >= 1
}

// The place of an ordered pair of ends in the index of pairs.
fn pair_of(link: Link) -> usize
    ensures { result ≡ link.from * 64 + link.to }
{
    usize::from(link.from) * SIDE + usize::from(link.to)
}

impl Mesh {
    /// A mesh of nodes without links.
    pub fn open(room: LinkRoom, nodes: u8, root: u8) -> Result<Mesh, MeshFault>
        ensures { MatchResult result (λ m. Passes (root_checks nodes root) × (m.nodes ≡ nodes) × (m.root ≡ root) × (m.links.items ≡ [])) (Fails (root_checks nodes root)) }
    {
        if nodes < 1 || nodes > MAX_NODES {
            return Err(MeshFault::Nodes);
        }
        if root >= nodes {
            return Err(MeshFault::Root);
        }
        let LinkRoom { links, taken } = room;
        Ok(Mesh {
            nodes,
            root,
            links,
            taken,
        })
    }

    /// Whether no further link can join.
    pub fn is_full(&self) -> bool
        ensures { result ≡ nat_le 512 (length self.now.links.items) }
    {
        self.links.len() >= MAX_LINKS
    }

    /// Adds a link at the end, if it keeps the rules; a refusal changes nothing.
    pub fn join(&mut self, link: Link) -> Result<(), LinkFault>
        ensures nodes { self.new.nodes ≡ self.old.nodes }
        ensures root { self.new.root ≡ self.old.root }
        ensures links { MatchResult result (λ _. Passes (link_checks self.old.nodes self.old.links.items link) × (self.new.links.items ≡ self.old.links.items ++ link ∷ [])) (λ e. Fails (link_checks self.old.nodes self.old.links.items link) e × (self.new.links.items ≡ self.old.links.items)) }
    {
        if self.is_full() {
            return Err(LinkFault::TooMany);
        }
        if !in_range(self.nodes, link) {
            return Err(LinkFault::OutOfRange);
        }
        if link.from == link.to {
            return Err(LinkFault::SameEnds);
        }
        let pair = pair_of(link);
        if self.taken[pair] {
            return Err(LinkFault::PairRepeated);
        }
        self.taken[pair] = true;
        self.links.push_reserved(link);
        Ok(())
    }

    /// The mesh of these parts, or the first rule that they break, in the order of a session file.
    pub fn new(room: LinkRoom, nodes: u8, root: u8, links: &[Link]) -> Result<Mesh, MeshFault>
        ensures { MatchResult result (λ m. Passes (mesh_checks nodes root links.now) × (m.nodes ≡ nodes) × (m.root ≡ root) × (m.links.items ≡ links.now)) (Fails (mesh_checks nodes root links.now)) }
    {
        let mut mesh = Mesh::open(room, nodes, root)?;
        for (k, link) in links.iter().enumerate() {
            mesh.join(*link)
                .map_err(|fault| MeshFault::BadLink(k, fault))?;
        }
        Ok(mesh)
    }
}
