//! The requests that the key-value pairs of a message spell.
#![tactic(auto)]

mod cells;
mod content;
mod jobs;
mod lists;
mod pairs;
mod reading;
mod request;
mod spelling;
mod templates;

pub use content::Content;
pub use reading::read_request;
pub use request::{
    Insertion, Interval, JobUnits, Request, RequestError, RequestedLayer, TemplateRequest, Update,
};
pub use spelling::MAX_QUERY;
