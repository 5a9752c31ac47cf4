//! The devices of a run of either program: what is read of inputs, what is written to outputs, and how a run ends.
//!
//! A run reads its [`Input`]s to their ends, within limits. It writes its whole answer to its [`Output`], or says by a
//! [`Fault`] why there is none. Devices count their failures, so that a run which lost something can't look whole. An
//! [`Opener`] opens the files that a call names, and loses none.
#![tactic(auto)]

mod device;
mod ended;
mod fault;
mod files;
mod folder;
mod judging;
mod losses;
mod names;
mod reading;
mod reply;
mod standard;

pub use device::{Failed, Input, Output, write_all};
pub use ended::{Ended, write_answer};
pub use fault::Fault;
pub use files::{CallFiles, Opener};
pub use folder::{Disk, Folder, follow_links, split_path};
pub use judging::{Judged, judged_starts};
pub use names::{CallFile, FileFault, FileNames};
pub use reading::{read_both, read_on, read_project, read_text};
pub use reply::{Reply, write_reply};
pub use standard::{InputReader, OutputWriter};
