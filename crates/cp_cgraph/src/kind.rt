// What can be wrong with a list that should say a clustered graph.
ghost use Rattle.std.specs.Prelude.{◌≡◌};
ghost use Rattle.cp_cgraph.specs.Kinds.{graph_name, graph_number};

use std::fmt;

/// What is wrong with a list that should say a clustered graph, and where it is told.
#[derive(Clone, Copy, Debug, PartialEq, Eq)]
pub enum GraphKind {
    /// No `graph` entry at depth 0, at the end of the list.
    NoGraph,
    /// A second or later `graph` entry at depth 0, at its key.
    SecondGraph,
    /// A first `graph`, a first `rootcluster`, a `node`, an `edge` or a `cluster` whose value is no list, at the
    /// value.
    NotAList,
    /// A node without an `id`, at its bracket.
    MissingId,
    /// A second or later `id` of a node, or `source` or `target` of an edge, at that key.
    RepeatedKey,
    /// The value of the first `id`, `source` or `target`, or of a `vertex`, that is no id, at the value.
    BadId,
    /// The id of an earlier node, at the value.
    DuplicateNode,
    /// A `source` or `target` that no node has as its id, at the value.
    UnknownEnd,
    /// A second or later `rootcluster` entry at depth 0 or in the graph list, at its key.
    SecondRoot,
    /// A `vertex` that no node has as its id, at the value.
    UnknownVertex,
    /// A `vertex` that names a node which an earlier `vertex` names, at the value.
    VertexTwice,
    /// An edge without a `source` or without a `target`, at its bracket.
    MissingEnd,
}

impl GraphKind {
    /// The number of the kind in the format: 10 to 21, in the order of the variants.
    pub fn number(&self) -> u8
        ensures { result ≡ graph_number self.now }
    {
        match self {
            GraphKind::NoGraph => 10,
            GraphKind::SecondGraph => 11,
            GraphKind::NotAList => 12,
            GraphKind::MissingId => 13,
            GraphKind::RepeatedKey => 14,
            GraphKind::BadId => 15,
            GraphKind::DuplicateNode => 16,
            GraphKind::UnknownEnd => 17,
            GraphKind::SecondRoot => 18,
            GraphKind::UnknownVertex => 19,
            GraphKind::VertexTwice => 20,
            GraphKind::MissingEnd => 21,
        }
    }

    /// The name of the kind.
    pub fn name(&self) -> &'static str
        ensures { result.now ≡ graph_name self.now }
    {
        match self {
            GraphKind::NoGraph => "NoGraph",
            GraphKind::SecondGraph => "SecondGraph",
            GraphKind::NotAList => "NotAList",
            GraphKind::MissingId => "MissingId",
            GraphKind::RepeatedKey => "RepeatedKey",
            GraphKind::BadId => "BadId",
            GraphKind::DuplicateNode => "DuplicateNode",
            GraphKind::UnknownEnd => "UnknownEnd",
            GraphKind::SecondRoot => "SecondRoot",
            GraphKind::UnknownVertex => "UnknownVertex",
            GraphKind::VertexTwice => "VertexTwice",
            GraphKind::MissingEnd => "MissingEnd",
        }
    }
}

impl fmt::Display for GraphKind {
    fn fmt<W: fmt::Write>(&self, f: &mut fmt::Formatter<W>) -> fmt::Result {
        f.write_str(self.name())
    }
}
