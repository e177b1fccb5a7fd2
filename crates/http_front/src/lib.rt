//! Messages of HTTP/1.1 (RFC 9112) off a stream, in whatever pieces its bytes come, and the replies to them.
#![tactic(auto)]

mod ahead;
mod body;
mod buffer;
mod connection;
mod head;
mod letter;
mod message;
mod pieces;
mod reply;

pub use connection::{Connection, Next};
pub use pieces::{PieceReader, PieceWriter};
pub use reply::{Reply, WriteFault};
