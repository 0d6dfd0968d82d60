//! Laws of codes, each a function with nothing to do.
ghost use Rattle.fn_code.specs.CodeMeans.{CodesMean};
ghost use Rattle.fn_code.specs.Weights.{StepsFall};

/// The code of each module means it: whatever a run begins with and whatever the answers are, its stops
/// are the asks and puts of the run in order, and its outcome is that of the run.
pub fn codes_mean()
    ensures { CodesMean }
{}

/// Between two stops a machine takes finitely many instructions: each of them lowers a number.
pub fn steps_end()
    ensures { StepsFall }
{}
