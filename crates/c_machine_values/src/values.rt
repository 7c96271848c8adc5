// The values of a run.

use c_machine_work::Stack;
use c_objects::ObjectMemory;

/// The values of a run: what stands on the stack, and the memory of objects.
#[derive(Drop)]
pub struct Values {
    pub stack: Stack,
    pub memory: ObjectMemory,
}
