//! What comes next on a stream: a whole head, or none.
ghost use Rattle.http_front.specs.Connection.{LooksAhead, TellsAhead};

use crate::buffer::{Buffer, Filled, MAX_HEAD};
use crate::head::{Front, WholeHead, front_of};
use stream_face::Source;

/// What stands ahead: a whole head; bytes of which no head comes, whatever follows; nothing, at the end of the stream;
/// a part of a head that the end cut short; or what had come of one when a read failed.
#[derive(Clone, Copy, Drop)]
pub enum Ahead {
    Whole(WholeHead),
    Bad,
    Nothing,
    Cut,
    Fault,
}

/// Reads until a head stands at the front, or none can come. A head is parsed where a line has ended since it was
/// parsed last: of a stream that comes byte by byte once a line, and so at most some 64 times over.
pub fn look_ahead<S: Source>(buffer: &mut Buffer, source: &mut S) -> Ahead
    ensures bytes { LooksAhead (S.view source.old) (S.view source.new) buffer.old buffer.new result }
    ensures told { TellsAhead (S.view source.old) (S.view source.new) result }
{
    let mut seen = 0;
    'reading: loop {
        match front_of(buffer.held(), seen) {
            Front::Whole(head) => return Ahead::Whole(head),
            Front::Bad => return Ahead::Bad,
            Front::Partial => {}
        }
        seen = buffer.len();
        if seen >= MAX_HEAD {
            return Ahead::Bad;
        }
        match buffer.fill(source, MAX_HEAD) {
            Filled::More => {}
            Filled::End => {
                if seen == 0 {
                    return Ahead::Nothing;
                }
                return Ahead::Cut;
            }
            Filled::Fault => return Ahead::Fault,
        }
    }
}
