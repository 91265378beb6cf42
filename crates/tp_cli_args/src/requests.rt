//! What a call may ask for.

use tp_cli_inputs::{DrawWords, PlanWords};
use tp_cli_plan::SearchWords;

/// What a call asks for.
#[derive(Drop)]
pub enum Request<'w> {
    /// The answers to the commands of the input.
    Bare,
    /// The same, and their journal in the file of a name.
    BareLog(&'w str),
    /// The same as the run whose journal is in the first file goes on, with all of its journal in
    /// the second.
    BareResume(&'w str, &'w str),
    /// The verdict on a plan.
    Check(PlanWords<'w>),
    /// The network of a plan.
    Net(PlanWords<'w>),
    /// The answers to the commands of the input on the network of a plan, and the plan of that run.
    Run(PlanWords<'w>),
    /// The same, and their journal in the file of a name.
    RunLog(PlanWords<'w>, &'w str),
    /// The same as the run whose journal is in the first file goes on, with all of its journal in
    /// the second.
    RunResume(PlanWords<'w>, &'w str, &'w str),
    /// A plan of a problem.
    Plan(SearchWords<'w>),
    /// The audit of the journal in a file, of commands on a network of bounds alone.
    Audit(&'w str),
    /// The audit of the journal in a file, of commands on the network of a plan.
    PlanAudit(&'w str, PlanWords<'w>),
    /// The intervals of the events of a plan, among agents whose numbers are in the file of a name.
    Split(PlanWords<'w>, &'w str),
    /// The network of one of these agents alone.
    Part(PlanWords<'w>, &'w str, u32),
    /// The picture of a plan, or of a run of it.
    Draw(DrawWords<'w>),
    /// A text of help, or the version.
    Help(String),
}
