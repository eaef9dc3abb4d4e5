// Whether the layout of a report is good for a graph.
ghost use Rattle.std.specs.Prelude.{◌≡◌, ℕ, ◌≤◌, ◌↔◌, MatchOption, length};
ghost use Rattle.cp_rot.specs.Systems.{darts};
ghost use Rattle.cp_rot.specs.Genus.{HasGenusZero};
ghost use Rattle.cp_border.specs.Good.{IsArranged, IsCPlanar, IsFirstWrongNode, IsGood, IsRightCluster, IsRightNode};
ghost use Rattle.cp_border.specs.Lines.{IsFirstWrongBorder};
ghost use Rattle.cp_check.specs.Judging.{IsGenusReason, IsGoodReport, IsLayoutReason, IsVerdict};
ghost use Rattle.cp_check.specs.Sizes.{AreSizesOf};

use crate::{Reject, Scratch, Verdict};
use cp_border::{View, first_wrong_cluster_in, first_wrong_node_in, write_tables};
use cp_cgraph::{CGraph, Layout};
use cp_report::Report;
use cp_rot::{RotationSystem, components_of, faces_of};

// Counts faces and components, and compares them with Euler's formula.
fn genus_reason<T: RotationSystem>(
    t: &T,
    dart_marks: &mut [bool],
    marks: &mut [bool],
    stack: &mut [usize],
) -> Option<Reject>
    requires dart_marks { darts (T.system t.now) ≤ length dart_marks.old }
    requires marks { (T.system t.now).vertices ≤ length marks.old }
    requires stack { (T.system t.now).vertices ≤ length stack.old }
    ensures { MatchOption result (HasGenusZero (T.system t.now)) (IsGenusReason (T.system t.now)) }
{
    let v = t.vertices();
    let e = t.darts() / 2;
    let f = faces_of(t, dart_marks);
    let c = components_of(t, marks, stack);
    if v + f == e + 2 * c {
        return None;
    }
    Some(Reject::Genus { v, e, f, c })
}

// The first node whose line is wrong.
fn wrong_node(g: &CGraph, lay: &Layout, s: &mut Scratch) -> Option<usize>
    requires { AreSizesOf s.old g.now }
    ensures first { MatchOption result ((i : ℕ) → IsRightNode g.now lay.now i) (λ i. IsFirstWrongNode g.now lay.now i) }
    ensures kept { s.new ≡ s.old }
{
    first_wrong_node_in(g, lay, &mut s.node_counts, &mut s.dart_marks)
}

// The first cluster whose line is wrong.
fn wrong_cluster(g: &CGraph, lay: &Layout, s: &mut Scratch) -> Option<usize>
    requires { AreSizesOf s.old g.now }
    ensures first { MatchOption result ((k : ℕ) → IsRightCluster g.now lay.now k) (λ k. IsFirstWrongBorder g.now lay.now k) }
    ensures kept { s.new ≡ s.old }
{
    first_wrong_cluster_in(g, lay, &mut s.cluster_counts, &mut s.dart_marks)
}

// Whether the border graph of right lines has another genus than zero.
fn wrong_genus(g: &CGraph, lay: &Layout, s: &mut Scratch) -> Option<Reject>
    requires fits { AreSizesOf s.old g.now }
    requires arranged { IsArranged g.now lay.now }
    ensures reason { MatchOption result (IsGood g.now lay.now) (IsLayoutReason g.now lay.now) }
    ensures kept { s.new ≡ s.old }
{
    write_tables(g, lay, &mut s.tables);
    let view = View::new(g, lay, &s.tables);
    genus_reason(&view, &mut s.dart_marks, &mut s.marks, &mut s.stack)
}

// The first reason for which the layout is not good for the graph, or `None` where it is good.
fn layout_reason(g: &CGraph, lay: &Layout, s: &mut Scratch) -> Option<Reject>
    requires { AreSizesOf s.old g.now }
    ensures reason { MatchOption result (IsGood g.now lay.now) (IsLayoutReason g.now lay.now) }
    ensures kept { s.new ≡ s.old }
{
    if let Some(node) = wrong_node(g, lay, s) {
        return Some(Reject::NodeLine(node));
    }
    if let Some(cluster) = wrong_cluster(g, lay, s) {
        return Some(Reject::ClusterLine(cluster));
    }
    wrong_genus(g, lay, s)
}

/// Whether the report has a good layout for the graph, or the first reason why it has none. A graph
/// with a good layout is c-planar (Feng, Cohen, Eades 1995). Takes no memory, and the scratch fits
/// the graph afterwards. Linear in the graph, the report and the border graph.
pub fn check(g: &CGraph, report: &Report, s: &mut Scratch) -> Verdict
    requires { AreSizesOf s.old g.now }
    ensures accepted { (result ≡ Verdict.Accepted) ↔ IsGoodReport g.now report.now }
    ensures planar { result ≡ Verdict.Accepted → IsCPlanar g.now }
    ensures verdict { IsVerdict g.now report.now result }
    ensures kept { s.new ≡ s.old }
{
    match report {
        Report::Yes(layout) => match layout_reason(g, layout, s) {
            None => Verdict::Accepted,
            Some(reason) => Verdict::Rejected(reason),
        },
        Report::No => Verdict::Rejected(Reject::NoLayout),
    }
}
