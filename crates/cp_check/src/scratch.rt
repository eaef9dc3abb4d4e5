// The room in which layouts of a graph are checked.
ghost use Rattle.std.specs.Prelude.{◌≡◌, ◌↔◌, IsTrue, IfOk, length};
ghost use Rattle.cp_border.specs.Tables.{HasPlaces};
ghost use Rattle.cp_check.specs.Sizes.{AreSizesOf, border_vertices};

use cp_base::Memory;
use cp_border::BorderTables;
use cp_cgraph::CGraph;
use std::alloc::Global;
use std::marker::Model;

// Whether the edges have exactly so many border vertices. No sum is formed.
fn has_borders(g: &CGraph, count: usize) -> bool
    ensures { IsTrue result ↔ (count ≡ border_vertices g.now) }
{
    let mut left = count;
    for e in 0..g.edges() {
        let crossed = g.crossed(e);
        if crossed > left {
            return false;
        }
        left -= crossed;
    }
    left == 0
}

/// All the memory that the check of a layout needs: the tables of the border graph, and counts and
/// marks. It serves each graph with the same numbers of nodes, edges, clusters and border vertices,
/// for any number of checks.
#[derive(Drop)]
pub struct Scratch {
    pub(crate) nodes: usize,
    pub(crate) edges: usize,
    pub(crate) clusters: usize,
    pub(crate) borders: usize,
    pub(crate) tables: BorderTables,
    pub(crate) node_counts: Vec<usize>,
    pub(crate) cluster_counts: Vec<usize>,
    pub(crate) dart_marks: Vec<bool>,
    pub(crate) marks: Vec<bool>,
    pub(crate) stack: Vec<usize>,
}

impl Model for Scratch {
    ghost use Rattle.std.specs.Prelude.{vec_len};
    ghost use Rattle.cp_check.specs.Sizes.{Sizes, HasRoom};

    ghost Value = { Sizes };

    ghost view = { λ t. record { nodes = t.nodes; edges = t.edges; clusters = t.clusters; borders = t.borders } };

    ghost invariant = { λ t. HasRoom record { nodes = t.nodes; edges = t.edges; clusters = t.clusters; borders = t.borders } t.tables (vec_len t.node_counts) (vec_len t.cluster_counts) (vec_len t.dart_marks) (vec_len t.marks) (vec_len t.stack) };
}

impl Scratch {
    // The room for these numbers, with tables for as many border vertices as they have places for.
    fn with_tables(
        alloc: Global,
        nodes: usize,
        edges: usize,
        clusters: usize,
        tables: BorderTables,
    ) -> Result<Scratch, Memory>
        requires { HasPlaces nodes edges (length tables.begins) tables }
        ensures { IfOk result (λ s. s ≡ record { nodes = nodes; edges = edges; clusters = clusters; borders = length tables.begins }) }
    {
        let borders = tables.borders();
        let vertices = nodes + borders;
        let node_counts = vec![in alloc; 0; nodes]?;
        let cluster_counts = vec![in alloc; 0; clusters]?;
        let dart_marks = vec![in alloc; false; 2 * (edges + 2 * borders)]?;
        let marks = vec![in alloc; false; vertices]?;
        let stack = vec![in alloc; 0; vertices]?;
        Ok(Scratch {
            nodes,
            edges,
            clusters,
            borders,
            tables,
            node_counts,
            cluster_counts,
            dart_marks,
            marks,
            stack,
        })
    }

    /// The memory for checks of layouts of the graph. `Memory` where an allocation fails, or where
    /// the border graph has more vertices or edges than any memory holds. Linear in the numbers of
    /// nodes, clusters, edges and border vertices.
    pub fn for_graph(alloc: Global, g: &CGraph) -> Result<Scratch, Memory>
        ensures { IfOk result (λ s. AreSizesOf s g.now) }
    {
        let tables = BorderTables::for_graph(alloc, g)?;
        Scratch::with_tables(alloc, g.nodes(), g.edges(), g.clusters(), tables)
    }

    /// Whether layouts of the graph can be checked here: it has the same numbers of nodes, edges,
    /// clusters and border vertices. Linear in the number of edges.
    pub fn fits(&self, g: &CGraph) -> bool
        ensures { IsTrue result ↔ AreSizesOf self.now g.now }
    {
        self.nodes == g.nodes()
            && self.edges == g.edges()
            && self.clusters == g.clusters()
            && has_borders(g, self.borders)
    }
}
