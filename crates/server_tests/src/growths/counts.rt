//! What came of scripts while growths were refused.

use arr_core::Refusal;

/// A part of a turn: its opening, a step by its place, or its close.
#[derive(Clone, Copy)]
pub enum Part {
    Opening,
    Step(usize),
    Close,
}

/// A part that gave a refusal that it may not give, or a step that gave another reply.
#[derive(Clone, Copy)]
pub struct Wrong {
    pub part: Part,
    pub refusal: Option<Refusal>,
}

/// How often want of memory was told, by the opening, by steps, and by the close.
#[derive(Clone, Copy)]
pub struct Counts {
    pub openings: u64,
    pub replies: u64,
    pub closes: u64,
}

impl Counts {
    pub fn new() -> Counts {
        Counts {
            openings: 0,
            replies: 0,
            closes: 0,
        }
    }

    pub fn all(&self) -> u64 {
        let steps = self.replies.saturating_add(self.closes);
        self.openings.saturating_add(steps)
    }

    pub fn count(&mut self, part: Part) {
        match part {
            Part::Opening => self.openings = self.openings.saturating_add(1),
            Part::Step(_) => self.replies = self.replies.saturating_add(1),
            Part::Close => self.closes = self.closes.saturating_add(1),
        }
    }

    /// Adds what was counted elsewhere.
    pub fn add(&mut self, more: &Counts) {
        self.openings = self.openings.saturating_add(more.openings);
        self.replies = self.replies.saturating_add(more.replies);
        self.closes = self.closes.saturating_add(more.closes);
    }
}
