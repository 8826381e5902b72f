//! The command line of `setup_audit` (own rule).
#![tactic(auto)]

mod commands;
mod ids;
mod reading;
mod tasks;

pub use reading::read_words;
pub use tasks::{
    ApplyOptions, CheckOptions, DiffOptions, ExportOptions, ExportPart, FormSetOptions,
    ImageOptions, ListOptions, OpcodesOptions, QuestionOptions, ReportOptions, Sources,
    SplitOptions, StoreFile, StoresOptions, SurveyOptions, TakenList, Task, UnlockOptions,
};
