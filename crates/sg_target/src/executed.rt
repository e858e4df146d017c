// What a command has executed.
use crate::operation::Operation;
use crate::reply::Reply;

/// The reply to a command, and what the command has executed.
#[derive(Drop)]
pub struct Executed<'a> {
    /// The reply.
    pub reply: Reply,
    /// The operation, which says what it has changed. None if the command was refused.
    pub operation: Option<Operation<'a>>,
}
