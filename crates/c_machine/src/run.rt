// The state of a run.

use crate::inputs::Inputs;
use c_machine_values::Values;
use c_machine_work::Work;

/// The state of a run: the work that is left, the stack and the memory, and the inputs, of which so
/// many were read.
#[derive(Drop)]
pub(crate) struct Run {
    pub(crate) work: Work,
    pub(crate) values: Values,
    pub(crate) inputs: Inputs,
    pub(crate) read: usize,
}
