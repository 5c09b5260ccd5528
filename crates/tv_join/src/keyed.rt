//! What a joined analysis is asked.

use tv_work::Task;

/// A task of the worklist, and for each predicate whether it counts for keys.
#[derive(Clone, Copy)]
pub(crate) struct KeyedTask<'a, 'b> {
    pub task: Task<'a, 'b>,
    pub counted: &'b [bool],
}
