//! The command line as both programs have it: options by `clap`, the command `verify`, files that are written beside their
//! names first, and what is printed of a call that has no answer.
#![tactic(auto)]

mod arguments;
mod help;
mod options;
mod part_file;
mod program;
mod verifying;

pub use arguments::{ArgumentsFault, count_of, file_name, has_flag, matches_of, number_of};
pub use options::{file, flag, heading, number, program_command, project_subcommand, subcommand};
pub use part_file::PartFile;
pub use program::{FOLDER, read_arguments, refuse, refuse_file, refuse_files, refuse_part, report};
pub use verifying::{VerifyCall, verify, verify_call, verify_command};
