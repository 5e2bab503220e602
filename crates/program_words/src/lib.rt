//! The command line: which command its words ask for, and over which files.
#![tactic(auto)]

mod grammar;
mod number;
mod refusal;
mod usage;
mod words;

pub use usage::{VERSION, usage_text};
pub use words::{
    ArgFault, AuditPaths, CheckPaths, Command, LastPaths, NextPaths, ReplayPaths, ReportPaths,
    RunPaths, SealPaths, ServePaths, read_words,
};
