// The lines of a report that hold a list.
ghost use Rattle.std.specs.Prelude.{◌≡◌};
ghost use Rattle.cp_report.specs.Reading.{row_key};

/// The two kinds of such lines.
#[derive(Clone, Copy)]
pub(crate) enum Row {
    /// The rotation of a node: its darts.
    Nodes,
    /// The order along the border of a cluster: its edges.
    Clusters,
}

/// The first word of such a line.
pub(crate) fn key_of(row: Row) -> &'static [u8]
    ensures { result.now ≡ row_key row }
{
    match row {
        Row::Nodes => b"node",
        Row::Clusters => b"cluster",
    }
}
