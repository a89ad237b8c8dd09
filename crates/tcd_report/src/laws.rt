// What the graph of an accepted certificate says of runs.
ghost use Rattle.tcd_report.specs.Graphs.EdgeLaws.{LinesHaveAllEdgesLaw};

/// Guards `AreGraphLines`, the definition of the graph's lines: each step of each run has its edge
/// on a line, with frame and address. The premises hold for accepted certificates.
pub fn graph_law()
    ensures { LinesHaveAllEdgesLaw }
{}
