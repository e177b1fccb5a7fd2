//! A server of coverages: messages come in as bytes, requests act on a store of named coverages, and replies go out as
//! bytes.
#![tactic(auto)]

mod arguments;
mod cells;
mod closing;
mod coverages;
mod describing;
mod error;
mod jobs;
mod laws;
mod named;
mod opening;
mod query;
mod requests;
mod server;
mod session;
mod templates;

pub use closing::NotClosed;
pub use laws::{one_answer, sessions_compose, templates_are_tomlins};
pub use server::{ConnectionEnd, Server};
pub use session::{SessionFault, serve_session};
