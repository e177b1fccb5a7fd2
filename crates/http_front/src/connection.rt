//! A connection: the messages of a stream, one after another, and the replies to them.
ghost use Rattle.std.specs.Prelude.{◌≡◌, ◌+◌, [], false, true, IfOk};
ghost use Rattle.stream_face.specs.Waiting.{IsFlushed};
ghost use Rattle.http_front.specs.Replies.{reply_bytes};
ghost use Rattle.http_front.specs.Sending.{Sends};
ghost use Rattle.http_front.specs.Stream.{TellsNext};
ghost use Rattle.http_front.specs.Connection.{TakesNext};

use crate::ahead::{Ahead, look_ahead};
use crate::buffer::Buffer;
use crate::message::take_message;
use crate::reply::{Reply, WriteFault, send};
use arr_core::Refusal;
use std::alloc::Global;
use std::marker::Model;
use stream_face::{Sink, Source};

/// What came next on a connection: a message's pairs, the number of a refusal, the end of the stream, or a failed read.
#[derive(Drop)]
pub enum Next {
    Message(Vec<u8>),
    Refused(u16),
    Ended,
    ReadFault,
}

/// A connection. Making one takes no memory.
#[derive(Drop)]
pub struct Connection {
    buffer: Buffer,
    /// Nothing comes after the last reply.
    over: bool,
    /// The next reply has no body.
    bare: bool,
    /// How many messages have come.
    count: usize,
}

impl Model for Connection {
    ghost use Rattle.std.specs.Prelude.{◌≡◌, ◌<◌, false};
    ghost use Rattle.http_front.specs.Limits.{max_messages};
    ghost use Rattle.http_front.specs.Connection.{ConnectionView};

    ghost Value = { ConnectionView };

    ghost view = { λ c. record { buffer = c.buffer; over = c.over; bare = c.bare; count = c.count } };

    ghost invariant = { λ c. c.over ≡ false → c.count < max_messages };
}

impl Connection {
    pub fn new() -> Connection
        ensures held { result.buffer ≡ [] }
        ensures open { result.over ≡ false }
        ensures count { result.count ≡ 0 }
    {
        Connection {
            buffer: Buffer::new(),
            over: false,
            bare: false,
            count: 0,
        }
    }

    /// Whether nothing comes after the last reply.
    pub fn is_over(&self) -> bool
        ensures { result ≡ self.now.over }
    {
        self.over
    }

    /// Takes the next message, reading as much as it needs: at most 16,384 bytes of head and 1,048,576 of body. Once
    /// the connection is over it is `Ended`, and nothing is read.
    ///
    /// A message is its pairs, still encoded. `Refused` is the number of BadHead for what is no head within the limits,
    /// a bad length or a body cut short, of BodyTooLong, of NoSuchPath for another path than `/ows`, of NotServed, and
    /// of NoMemory where none was found for the pairs. `ReadFault` is answered only where a read failed in this call.
    pub fn next<S: Source>(&mut self, alloc: Global, source: &mut S) -> Next
        ensures found { self.old.over ≡ false → TakesNext (S.view source.old) (S.view source.new) self.old self.new result }
        ensures ended { self.old.over ≡ true → (result ≡ Next.Ended) × (source.new ≡ source.old) × (self.new ≡ self.old) }
        ensures count { self.new.over ≡ false → self.new.count ≡ self.old.count + 1 }
        ensures told { TellsNext (S.view source.old) (S.view source.new) result }
    {
        if self.over {
            return Next::Ended;
        }
        match look_ahead(&mut self.buffer, source) {
            Ahead::Whole(head) => {
                let taken = take_message(&mut self.buffer, alloc, source, head, self.count);
                self.over = taken.over;
                self.bare = head.bare;
                self.count += 1;
                taken.next
            }
            Ahead::Nothing => {
                self.over = true;
                Next::Ended
            }
            Ahead::Bad => {
                self.over = true;
                self.bare = false;
                Next::Refused(Refusal::BadHead.number())
            }
            Ahead::Cut => {
                self.over = true;
                self.bare = false;
                Next::Refused(Refusal::BadHead.number())
            }
            Ahead::Fault => {
                self.over = true;
                Next::ReadFault
            }
        }
    }

    /// Writes the reply to the message that came last, without its body where that was a HEAD, and flushes it. A small
    /// reply goes out in one write.
    pub fn send<K: Sink>(&self, sink: &mut K, reply: &Reply) -> Result<(), WriteFault>
        ensures sent { Sends (K.view sink.old) (K.view sink.new) result (reply_bytes self.now.over self.now.bare reply.now) }
        ensures flushed { IfOk result (λ _. IsFlushed (K.view sink.new).waiting) }
    {
        send(sink, reply, self.over, self.bare)
    }
}
