//! Rounds: callers that do their jobs at posts, at the same time or one after another.
//!
//! Each caller has a list of jobs. For a job it looks at some posts, one after another, makes an event of what it saw, and acts at
//! one post. Posts and callers are made together, each caller goes its way wherever it is called, and where all are done the
//! posts are closed.
//!
//! In reading order: a job (`job`), what is seen of a post (`sight`), how an event is made (`maker`), what a post begins with
//! and how it ends (`base`, `ended`), a caller (`caller`), how posts and callers are made (`opening`), a caller's way through its
//! jobs (`looking`, `walking`), all callers at the same time (`work`), and how the posts are closed (`closing`).
#![tactic(auto)]

mod base;
mod caller;
mod closing;
mod ended;
mod job;
mod looking;
mod maker;
mod opening;
mod sight;
mod walking;
mod work;

pub use base::Base;
pub use caller::Caller;
pub use closing::close_all;
pub use ended::Ended;
pub use job::Job;
pub use maker::Maker;
pub use opening::{Opened, open_all};
pub use sight::Sight;
pub use walking::walk;
pub use work::{Work, all_at_once};
