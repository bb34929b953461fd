//! A problem and a graph that fits it.

ghost use Rattle.std.specs.Prelude.{◌≡◌, ◌<◌, ℕ, All, IfOk, length};
ghost use Rattle.rf_problem.specs.Asserted.{matches};
ghost use Rattle.rf_problem.specs.Classes.{is_below};
ghost use Rattle.rf_graph.specs.Graph.{Fits, class_of, has_edge, origin_of, size_of};
ghost use Rattle.rf_satisfy.specs.EdgeEnds.{is_listed};
ghost use Rattle.rf_satisfy.specs.Tuples.{ArePassing};

use crate::index::edges::EdgeIndex;
use crate::index::node_lists::{NodeLists, node_lists};
use crate::kinds::nodes::class_of;
use rf_graph::Graph;
use rf_problem::Problem;
use std::alloc::{AllocError, Global};
use std::marker::Model;

/// A problem, and a graph that fits it: the edges and the nodes of each object are found fast.
#[derive(Drop)]
pub struct GraphIndex<'a> {
    problem: &'a Problem,
    edges: &'a EdgeIndex<'a>,
    nodes: NodeLists,
}

impl<'a> Model for GraphIndex<'a> {
    ghost use Rattle.rf_satisfy.specs.NodeLists.{IsListed};
    ghost use Rattle.rf_satisfy.specs.Indexed.{Indexed};

    ghost Value = { Indexed };

    ghost view = { λ v. record { problem = v.problem.now; graph = v.edges.now.graph.now } };

    ghost invariant = { λ v.
        IsListed v.problem.now v.edges.now.graph.now v.nodes.all.items v.nodes.rows.items };
}

impl<'a> GraphIndex<'a> {
    pub fn new(
        alloc: Global,
        problem: &'a Problem,
        edges: &'a EdgeIndex<'a>,
    ) -> Result<GraphIndex<'a>, AllocError>
        requires { Fits problem.now edges.now.graph.now }
        ensures { IfOk result (λ index.
            index ≡ record { problem = problem.now; graph = edges.now.graph.now }) }
    {
        let nodes = node_lists(alloc, problem.objects.len(), edges.graph)?;
        Ok(GraphIndex {
            problem,
            edges,
            nodes,
        })
    }

    pub fn problem(&self) -> &'a Problem
        ensures { result.now ≡ self.now.problem }
    {
        self.problem
    }

    pub fn graph(&self) -> &'a Graph
        ensures value { result.now ≡ self.now.graph }
        ensures fits { Fits self.now.problem self.now.graph }
    {
        self.edges.graph
    }

    /// How many nodes the graph has.
    pub fn size(&self) -> u64
        ensures { result ≡ size_of self.now.graph }
    {
        self.graph().nodes.len() as u64
    }

    /// How many objects there are. Each node comes from one of them.
    pub fn objects(&self) -> u64
        ensures count { result ≡ length self.now.problem.objects }
        ensures origins { (x : ℕ) → x < size_of self.now.graph → origin_of self.now.graph x < result }
    {
        self.problem.objects.len() as u64
    }

    /// Whether node `x` has class `k`, itself or by one that it extends.
    pub fn has_class(&self, k: u32, x: u64) -> bool
        requires { k < length self.now.problem.classes }
        ensures { result ≡ is_below self.now.problem.classes (class_of self.now.graph x) k }
    {
        self.problem.is_below(class_of(self.graph(), x), k)
    }

    /// The nodes that come from an object that an argument matches, in ascending order.
    pub fn nodes_matching(&self, arg: Option<u64>) -> &[u64]
        ensures { ArePassing (size_of self.now.graph)
            (λ x. matches arg (origin_of self.now.graph x)) result.now }
    {
        match arg {
            None => self.nodes.all.as_slice(),
            Some(object) => match self.nodes.rows.get(object as usize) {
                Some(nodes) => nodes.as_slice(),
                None => &[],
            },
        }
    }

    /// Whether an edge of reference `r` leads from node `x` to node `y`.
    pub fn has_edge(&self, r: u32, x: u64, y: u64) -> bool
        ensures { result ≡ has_edge self.now.graph r x y }
    {
        self.edges.has(r, x, y)
    }

    /// The nodes that edges of reference `r` lead to from node `x`.
    pub fn ends_from(&self, r: u32, x: u64) -> &[u64]
        ensures listed { (y : ℕ) → is_listed result.now y ≡ has_edge self.now.graph r x y }
        ensures nodes { All (λ y. y < size_of self.now.graph) result.now }
    {
        self.edges.ends_from(r, x)
    }

    /// The nodes that edges of reference `r` lead from to node `y`.
    pub fn ends_into(&self, r: u32, y: u64) -> &[u64]
        ensures listed { (x : ℕ) → is_listed result.now x ≡ has_edge self.now.graph r x y }
        ensures nodes { All (λ x. x < size_of self.now.graph) result.now }
    {
        self.edges.ends_into(r, y)
    }
}
