//! Laws of tasks. Each function does nothing: its clause is the law, for proofs to cite.
ghost use Rattle.bcv_dbcopy.specs.TaskPut.{BlocksAreThePages, BlocksStay, BlocksStayAfterPut};
ghost use Rattle.bcv_dbcopy.specs.TaskDescent.{PutFalls, WorkFalls};

/// A task that has put all its blocks publishes exactly its edit. The world says by it which edit of the machine a put is.
pub fn blocks_are_the_pages()
    ensures { BlocksAreThePages }
{}

/// What a task has put stays, while others append lawful entries and after one more own block. A client keeps by it what it
/// knows of its tasks.
pub fn blocks_stay()
    ensures others { BlocksStay }
    ensures put { BlocksStayAfterPut }
{}

/// A step that goes on, and a put that is refused, lower the task's state in an order that has no endless descent.
pub fn steps_fall()
    ensures work { WorkFalls }
    ensures put { PutFalls }
{}
