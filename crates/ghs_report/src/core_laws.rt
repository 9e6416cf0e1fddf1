//! What holds of the cores of every run. The law is a function that does nothing.
ghost use Rattle.ghs_report.specs.CoreLaws.{CoresAgree};

/// In every run a component ends with the core, and at the level, to which merging the graph alone leads: so what
/// `put_ended_cores` puts behind a text is what `put_graph_cores` does.
pub fn law_cores_agree()
    ensures { CoresAgree }
{}
