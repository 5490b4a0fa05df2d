//! The builder: from words and a feed's files to a report, an image and a status.
//!
//! What is answered is one definition over the words and the list of files, apart from how it is found. All texts
//! are made before the first of them is put, the image first and then the report, so that a call which finds no
//! memory leaves both sinks alone, and a report stands only after a whole image.
#![tactic(auto)]

mod answer;
mod asked;
mod build;
mod commands;
mod config;
mod configuration;
mod fault;
mod plan;
mod planning;
mod put;
mod report;
mod show;
mod status;
mod still;
mod top;

pub use answer::Answer;
pub use status::Status;
pub use still::{has_one_worker, run_still};
pub use top::run;
