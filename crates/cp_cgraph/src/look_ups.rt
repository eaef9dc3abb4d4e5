// Tables that tell at once how clusters are nested and what edges cross. Clusters are numbered as they
// are opened, so those within one have numbers that follow one another.
ghost use Rattle.std.specs.Prelude.{IfOk};
ghost use Rattle.cp_cgraph.specs.Clustered.{edges, clusters};
ghost use Rattle.cp_cgraph.specs.LookUps.{IsNested, AreLasts, IsTable, depth};
ghost use Rattle.cp_cgraph.specs.Crossings.{crossed};

use crate::stored::Stored;
use crate::walks::crossing_count;
use cp_base::Memory;
use std::alloc::Global;

// The numbers below `n`.
fn below(alloc: Global, n: usize) -> Result<Vec<usize>, Memory>
    ensures { IfOk result (λ numbers. IsTable n numbers.items (λ k. k)) }
{
    let mut numbers = Vec::new(alloc);
    'numbering: for k in 0..n {
        numbers.push(k)?;
    }
    Ok(numbers)
}

// For each cluster the greatest number of a cluster within it: that of itself, or the greatest one
// within a cluster whose parent it is.
pub(crate) fn lasts(g: &Stored, alloc: Global) -> Result<Vec<usize>, Memory>
    requires { IsNested g.now }
    ensures { IfOk result (λ lasts. AreLasts g.now lasts.items) }
{
    g.is_clustered();
    let clusters = g.clusters();
    let mut lasts = below(alloc, clusters)?;
    let mut c = clusters - 1;
    'raising: while c > 0 {
        let outer = g.parent(c);
        lasts[outer] = lasts[outer].max(lasts[c]);
        c -= 1;
    }
    Ok(lasts)
}

// For each cluster the number of clusters round it, with itself and without the root.
pub(crate) fn depths(g: &Stored, alloc: Global) -> Result<Vec<usize>, Memory>
    ensures { IfOk result (λ depths. IsTable (clusters g.now) depths.items (depth g.now)) }
{
    g.is_clustered();
    let mut depths = Vec::new(alloc);
    depths.push(0)?;
    'counting: for c in 1..g.clusters() {
        let outside = depths[g.parent(c)];
        depths.push(outside + 1)?;
    }
    Ok(depths)
}

// For each edge the number of clusters that it leaves. Time in their sum.
pub(crate) fn crossed(g: &Stored, alloc: Global) -> Result<Vec<usize>, Memory>
    ensures { IfOk result (λ counts. IsTable (edges g.now) counts.items (crossed g.now)) }
{
    g.is_clustered();
    let mut counts = Vec::new(alloc);
    'counting: for e in 0..g.edges() {
        counts.push(crossing_count(g, e))?;
    }
    Ok(counts)
}
