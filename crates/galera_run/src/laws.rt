//! The laws of the definitions, each as the contract of a call that does nothing.
ghost use Rattle.galera_run.specs.Schedules.{RunsOverSteps};
ghost use Rattle.galera_run.specs.Headline.{RunsReplicate};

/// The run over an input is the run over the steps of its lines: what that prints are its answers,
/// and it ends with its cluster. Where a line is refused, over the steps of the lines before it.
pub fn run_laws()
    ensures { RunsOverSteps }
{}

/// The theorem of the whole: every run of a cluster is right. What the sessions of its nodes are
/// told holds of the whole order, all nodes judge an event alike, and at every moment each shows
/// the changes of the commits that passed and of nothing else.
pub fn right_laws()
    ensures { RunsReplicate }
{}
