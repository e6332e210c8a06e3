//! The records of the watchers.
//!
//! What a visit reads of a watcher, its link and its literal, stands in one record, and the two
//! records of a clause are neighbours: the link of the watcher that is visited and the literal of the
//! other one are 16 bytes in all, mostly of one line of the cache.
ghost use Rattle.std.specs.Prelude.{◌≡◌, ◌+◌, ◌<◌, [], OnOk, OnErr, length, slice_set};
ghost use Rattle.std.specs.Prelude.{slice_index_or};
ghost use Rattle.sdcl_trail.specs.Laid.{no_lit};
ghost use Rattle.sdcl_prop.specs.Chains.{IsLonger};

use sdcl_base::{Lit, NoMemory};
use std::alloc::Global;
use std::marker::Model;

#[derive(Clone, Copy, Debug, PartialEq, Eq)]
struct Node {
    link: u32,
    lit: Lit,
}

/// Numbered nodes, each with a link and a literal.
#[derive(Drop)]
pub struct Nodes {
    nodes: Vec<Node>,
}

impl Model for Nodes {
    ghost use Rattle.std.specs.Prelude.{ℕ, List, map};
    ghost use Rattle.sdcl_base.specs.Literal.{Literal};

    ghost Value = { List ℕ × List Literal };

    ghost view = { λ s. (map (λ n. n.link) s.nodes.items, map (λ n. n.lit) s.nodes.items) };
}

impl Nodes {
    pub fn new(alloc: Global) -> Nodes
        ensures { result ≡ ([], []) }
    {
        Nodes {
            nodes: Vec::new(alloc),
        }
    }

    /// More nodes: as many as are wanted, or none where memory is wanting.
    pub fn grow(&mut self, more: usize) -> Result<(), NoMemory>
        requires { length self.old.0 + more < u32.MAX }
        ensures links { OnOk result (IsLonger self.old.0 self.new.0 more) }
        ensures lits { OnOk result (IsLonger self.old.1 self.new.1 more) }
        ensures err { OnErr result (self.new ≡ self.old) }
    {
        let count = self.nodes.len() + more;
        let Ok(()) = self.nodes.resize_with(count, no_node) else {
            return Err(NoMemory);
        };
        Ok(())
    }

    pub fn link(&self, node: usize) -> u32
        requires { node < length self.now.0 }
        ensures { result ≡ slice_index_or self.now.0 node 0 }
    {
        self.nodes[node].link
    }

    pub fn set_link(&mut self, node: usize, link: u32)
        requires { node < length self.old.0 }
        ensures { self.new ≡ (slice_set self.old.0 node link, self.old.1) }
    {
        self.nodes[node].link = link;
    }

    pub fn lit(&self, node: usize) -> Lit
        requires { node < length self.now.1 }
        ensures { result ≡ slice_index_or self.now.1 node no_lit }
    {
        self.nodes[node].lit
    }

    pub fn set_lit(&mut self, node: usize, l: Lit)
        requires { node < length self.old.1 }
        ensures { self.new ≡ (self.old.0, slice_set self.old.1 node l) }
    {
        self.nodes[node].lit = l;
    }
}

fn no_node() -> Node {
    Node {
        link: 0,
        lit: Lit::default(),
    }
}
