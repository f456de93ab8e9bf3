//! What is to be done at a node.
/// What is to be done at a node, where all that follows is tidy.
#[derive(Clone, Copy, Debug, PartialEq, Eq)]
pub enum Task {
    /// Nothing.
    Leave,
    /// A node that sets this slot goes down, or is taken out.
    Lower(u32),
    /// A split whose condition has this truth gives way to one branch.
    Choose(bool),
    /// An empty side of a join is taken out.
    Join,
}
