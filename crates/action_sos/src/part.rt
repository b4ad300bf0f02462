//! A part of an acting tree that runs, and the frames around it.
ghost use Rattle.std.specs.Prelude.{◌≡◌, ◌+◌, ◌<◌, ◌≤◌, [], ◌∷◌, ◌++◌, true, length, map, reverse, IfOk, IfSome, IfNone};
ghost use Rattle.action_terms.specs.Frames.{shut_if};
ghost use Rattle.action_sos.specs.Parts.{closes, IsBesideEnd, IsBroken};
ghost use Rattle.action_sos.specs.Views.{frame_of, focus_of, end_of, part_of};
ghost use Rattle.action_sos.specs.Kept.{own_count, IsCounted, IsBrokenOff};

use crate::ends::End;
use crate::moves::Received;
use acg_base::Memory;
use action_values::{Binding, Datum};
use bumpalo::Bump;
use std::alloc::Global;

/// One of the two parts of `and` or `moreover`.
#[derive(Clone, Copy, PartialEq, Eq)]
pub enum Side {
    /// The left one.
    Left,
    /// The right one.
    Right,
}

/// What stands around a part. Numbers are those of action nodes.
#[derive(Clone, Copy)]
pub enum Frame<'a> {
    /// The body of a closure or of an `unfolding`.
    Called {
        /// The root of the body.
        body: u32,
    },
    /// The first of two parts in order.
    First {
        /// The node.
        node: u32,
        /// What the node was given.
        given: &'a [Datum<'a>],
        /// What it received.
        bound: &'a [Binding<'a>],
    },
    /// The second, after the first completed.
    Second {
        /// The node.
        node: u32,
        /// What the first part gave.
        given: &'a [Datum<'a>],
        /// What it bound.
        bound: &'a [Binding<'a>],
    },
    /// An arm of `or`, with the other arm still open.
    Or {
        /// The other arm.
        other: u32,
        /// What the node was given.
        given: &'a [Datum<'a>],
        /// What it received.
        bound: &'a [Binding<'a>],
    },
    /// An arm of `or` after a commitment.
    Cut,
    /// The left part of `trap`.
    Trap {
        /// The node.
        node: u32,
        /// What it received.
        bound: &'a [Binding<'a>],
    },
    /// The part of `furthermore`.
    Over {
        /// What the node received.
        bound: &'a [Binding<'a>],
    },
    /// A part of `and` or `moreover` whose other part has ended.
    Beside {
        /// The node.
        node: u32,
        /// The side that has ended.
        side: Side,
        /// How.
        end: End<'a>,
    },
}

/// What stands within the frames.
#[derive(Clone, Copy)]
pub enum Focus<'a> {
    /// A node that is to be performed.
    Run {
        /// The node.
        node: u32,
        /// What it is given.
        given: &'a [Datum<'a>],
        /// What it receives.
        bound: &'a [Binding<'a>],
    },
    /// What has ended.
    Ended(End<'a>),
    /// The two parts of `and` or `moreover`, neither of which has ended.
    Parts {
        /// The node.
        node: u32,
    },
}

/// The frames around a part.
#[cycle(frames)]
#[derive(Clone, Copy)]
pub enum Frames<'a> {
    /// There are none.
    Outermost,
    /// A frame, and those around it.
    Inner {
        /// The frame.
        frame: Frame<'a>,
        /// The frames around it.
        around: &'a Frames<'a>,
    },
}

/// A part of an acting tree.
#[derive(Clone, Copy)]
pub struct Part<'a> {
    /// What stands around.
    pub frames: Frames<'a>,
    /// How many frames there are.
    pub depth: usize,
    /// In so many of the outermost frames each alternative is closed, also where the frame says that it is open.
    pub closed: usize,
    /// How many frames stand beside a part that has escaped or failed.
    pub broken: usize,
    /// What stands within.
    pub focus: Focus<'a>,
}

impl<'a> Focus<'a> {
    /// A node that is to be performed.
    pub fn run(node: u32, received: Received<'a>) -> Focus<'a>
        ensures { result ≡ Focus.Run node received.entry.given received.entry.bound }
    {
        Focus::Run {
            node,
            given: received.given,
            bound: received.bound,
        }
    }
}

/// How many steps of its own a frame has while its part goes on: one where it stands beside a part that has escaped or failed.
pub fn own_count(frame: Frame<'_>) -> usize
    ensures count { result ≡ own_count frame.entry }
    ensures bound { result ≤ 1 }
{
    match frame {
        Frame::Beside {
            end: End::Escaped { .. } | End::Failed,
            ..
        } => 1,
        _ => 0,
    }
}

impl<'a> Frame<'a> {
    // the frame once what stands within has committed
    fn shut(self) -> Frame<'a>
        ensures { frame_of result ≡ shut_if true (frame_of self.entry) }
    {
        match self {
            Frame::Or { .. } => Frame::Cut,
            frame => frame,
        }
    }

    // how the part beside has escaped or failed, where it has
    fn broken_beside(self) -> Option<End<'a>>
        ensures beside { IfSome result (λ z. IsBesideEnd (end_of z) (frame_of self.entry)) }
        ensures broken { IfSome result (λ z. IsBroken (end_of z)) }
        ensures one { IfSome result (λ z. own_count self.entry ≡ 1) }
        ensures none { IfNone result (own_count self.entry ≡ 0) }
    {
        match self {
            Frame::Beside {
                end: End::Done { .. },
                ..
            } => None,
            Frame::Beside { end, .. } => Some(end),
            _ => None,
        }
    }
}

impl<'a> Part<'a> {
    /// A part with no frames.
    pub fn bare(focus: Focus<'a>) -> Part<'a>
        ensures part { part_of result ≡ record { frames = []; focus = focus_of focus.entry } }
        ensures counted { IsCounted result }
        ensures none { result.broken ≡ 0 }
    {
        Part {
            frames: Frames::Outermost,
            depth: 0,
            closed: 0,
            broken: 0,
            focus,
        }
    }

    /// The part with each alternative of its frames closed.
    pub fn with_all_closed(self) -> Part<'a>
        requires counted { IsCounted self }
        ensures part { part_of result ≡ closes true (part_of self.entry) }
        ensures counted { IsCounted result }
        ensures broken { result.broken ≡ self.entry.broken }
    {
        Part {
            closed: self.depth,
            ..self
        }
    }

    /// The innermost frame as it stands, and the part without it; nothing where there is no frame.
    pub fn split_inmost(self) -> Option<(Frame<'a>, Part<'a>)>
        requires counted { IsCounted self }
        ensures frames { IfSome result (λ r. (part_of self.entry).frames ≡ (part_of r.1).frames ++ frame_of r.0 ∷ []) }
        ensures focus { IfSome result (λ r. r.1.focus ≡ self.entry.focus) }
        ensures counted { IfSome result (λ r. IsCounted r.1) }
        ensures none { IfNone result ((part_of self.entry).frames ≡ []) }
    {
        let Frames::Inner { frame, around } = self.frames else {
            return None;
        };
        let depth = self.depth - 1;
        let (frame_now, closed) = if self.closed > depth {
            (frame.shut(), depth)
        } else {
            (frame, self.closed)
        };
        let part = Part {
            frames: *around,
            depth,
            closed,
            broken: self.broken - own_count(frame),
            focus: self.focus,
        };
        Some((frame_now, part))
    }

    /// The part with one more frame, the innermost.
    pub fn within(self, arena: &'a Bump, frame: Frame<'a>) -> Result<Part<'a>, Memory>
        requires counted { IsCounted self }
        ensures part { IfOk result (λ p. part_of p ≡ record { frames = (part_of self.entry).frames ++ frame_of frame.entry ∷ []; focus = (part_of self.entry).focus }) }
        ensures counted { IfOk result (λ p. IsCounted p) }
        ensures broken { IfOk result (λ p. p.broken ≤ self.entry.broken + 1) }
    {
        let Some(depth) = self.depth.checked_add(1) else {
            return Err(Memory);
        };
        let around = arena.try_alloc(self.frames)?;
        Ok(Part {
            frames: Frames::Inner { frame, around },
            depth,
            closed: self.closed,
            broken: self.broken + own_count(frame),
            focus: self.focus,
        })
    }

    // the frames as they stand, the innermost first
    fn inmost_first(self, alloc: Global) -> Result<Vec<Frame<'a>>, Memory>
        requires counted { IsCounted self }
        ensures { IfOk result (λ v. reverse (map frame_of v.items) ≡ (part_of self.entry).frames) }
    {
        let mut frames = Vec::with_capacity(alloc, self.depth)?;
        let mut part = self;
        while let Some((frame, outer)) = part.split_inmost() {
            frames.push(frame)?;
            part = outer;
        }
        Ok(frames)
    }

    /// The part around a frame beside a part that has escaped or failed, and how that has ended. The index counts these frames from the innermost on.
    pub fn break_off(self, index: usize) -> (Part<'a>, End<'a>)
        requires counted { IsCounted self }
        requires there { index < self.broken }
        ensures frames { IsBrokenOff (part_of self.entry).frames index (part_of result.0).frames (end_of result.1) }
        ensures counted { IsCounted result.0 }
    {
        let mut part = self;
        let mut left = index;
        while let Some((frame, outer)) = part.split_inmost() {
            part = outer;
            if let Some(end) = frame.broken_beside() {
                if left == 0 {
                    return (part, end);
                }
                left -= 1;
            }
        }
        unreachable!()
    }

    /// What is left of two parts where one has ended: the frames of the node of both, the frame that says how one has ended, and the other part within.
    pub fn beside(
        self,
        alloc: Global,
        arena: &'a Bump,
        frame: Frame<'a>,
        inner: Part<'a>,
    ) -> Result<Part<'a>, Memory>
        requires counted { IsCounted self }
        requires inner_counted { IsCounted inner }
        ensures part { IfOk result (λ p. part_of p ≡ record { frames = (part_of self.entry).frames ++ frame_of frame.entry ∷ (part_of inner.entry).frames; focus = (part_of inner.entry).focus }) }
        ensures counted { IfOk result (λ p. IsCounted p) }
    {
        let frames = inner.inmost_first(alloc)?;
        let mut part = self.within(arena, frame)?;
        for i in (0..frames.len()).rev() {
            part = part.within(arena, frames[i])?;
        }
        Ok(Part {
            focus: inner.focus,
            ..part
        })
    }
}
