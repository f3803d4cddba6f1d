use cluster_core::ClusterOf;
use group_order::MemGroup;
use report_text::LoadCounts;
use wsrep_watch::ListWatcher;

/// Nodes over a group in memory, whom nobody watches.
pub type Unwatched = ClusterOf<MemGroup, ListWatcher>;

/// A workload as it runs.
#[derive(Drop)]
pub struct Workload {
    pub cluster: Unwatched,
    /// What its steps were answered.
    pub counts: LoadCounts,
    /// How many steps were run.
    pub steps: u64,
}
