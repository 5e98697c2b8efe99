//! Files that are loaded as texts, in parts where they are long.
//!
//! - `files` has sets of files, found by name, and loads those of a job in order.
//! - `loading` loads a file, a long one by several threads.
//! - `stored` has files that are read at any place, and where they are found.
//! - `system_files` has the files of the system.
#![tactic(auto)]

pub mod files;
pub mod loading;
pub mod stored;
pub mod system_files;
