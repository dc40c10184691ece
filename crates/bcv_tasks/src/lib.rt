//! The publishing tasks of a client, behind one face.
//!
//! A create of a container, a new database, a copy, a removal, an upload and a cleanup are one enum here, with one set of
//! calls and one answer of the manifest's put. It stands on the tasks of `bcv_dbcopy`, `bcv_upload` and `bcv_cleanup` and on
//! the create of `bcv_publish`. Over every store each call promises what the task is afterwards, which names were drawn and
//! whose fault is answered. Over a sound log that others grow by lawful entries it promises of every task the same: what
//! others appended, at most one own entry, which is lawful, the outcome of the request, the number of the version that was
//! published, and that what the task has put stays its own. So a client proves each step once, and not once for each task.
//! The requests before the put are those of each kind's own crate, and `kinds_work_as_tasks` makes them into a task's.
#![tactic(auto)]

mod create_task;
mod intent;
mod laws;
mod publish_task;
mod put_answer;
mod task_put;

pub use create_task::CreateTask;
pub use laws::{kinds_work_as_tasks, owned_stays, puts_keep_names};
pub use publish_task::PublishTask;
pub use put_answer::PutAnswer;
