use script_text::ScriptCause;

/// A run that read its input to the end.
#[derive(Clone, Copy, Debug, PartialEq, Eq)]
pub struct Finished {
    /// The step lines that were run.
    pub steps: u64,
    /// The length of the total order.
    pub events: u64,
}

/// Why a run stopped. The lines already written stand.
#[derive(Clone, Copy, Debug, PartialEq, Eq)]
pub enum RunFault {
    /// A line of the input is outside the grammar or passes a limit.
    Script { line: u64, cause: ScriptCause },
    /// The source failed.
    Read,
    /// The sink failed.
    Write,
    NoMemory,
}
