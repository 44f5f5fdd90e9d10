//! Segments are cleaned.
ghost use Rattle.std.specs.Prelude.{◌≡◌, true, false, IfNone, IfSome};
ghost use Rattle.nl_lib.specs.CleanedSegments.{CleansSegment, CleansSegments, is_moved};

use nl_core::Pen;
use nl_device::Device;
use nl_types::{Event, Reply, Segment, VolError};

/// What a cleaning of segments came to.
#[derive(Clone, Copy)]
pub struct Cleaned {
    /// How many segments were retired.
    pub retired: usize,
    /// The refusal that ended it, if one did.
    pub refusal: Option<VolError>,
}

/// Whether a move was done.
fn is_moved(event: Event, reply: &Reply) -> bool
    ensures { result ≡ is_moved event reply.now }
{
    let is_moved = match event {
        Event::Move { .. } => reply.is_ok(),
        _ => false,
    };
    drop(event);
    is_moved
}

/// The reply, where the event is no move that was done.
fn last_reply(event: Event, reply: Reply) -> Option<Reply>
    ensures last { IfSome result (λ last. (last ≡ reply) × (is_moved event reply ≡ false)) }
    ensures moved { IfNone result (is_moved event reply ≡ true) }
{
    if is_moved(event, &reply) {
        return None;
    }
    Some(reply)
}

/// Moves what is needed out of a segment and retires it. It answers the last event's reply: the retirement's,
/// or a refusal.
fn clean_segment<D: Device>(pen: &mut Pen<D>, segment: Segment, now: u64) -> Reply
    ensures { CleansSegment segment now pen.old result pen.new }
{
    pen.means_a_world();
    loop {
        let event = pen.cleaning_event(segment, now);
        let reply = pen.apply(&event);
        if let Some(last) = last_reply(event, reply) {
            return last;
        }
    }
}

/// Cleans segments in the order of the list, after `nilfs_clean_segments`: moves what is needed out of each,
/// as many blocks at a time as a log takes, and retires it. The moment is in whole seconds, and goes into the
/// logs of the moves.
///
/// It ends at the first refusal, and tells it: `BadRange` where there is no such segment, `SegClean`,
/// `SegActive` or `SegError` by the segment's state, and `NumbersSpent`, `NoSpace`, `Memory` or `Fault` of a
/// move. What was moved and retired before stays so. Each move makes a minor checkpoint.
pub fn clean_segments<D: Device>(pen: &mut Pen<D>, segments: &[Segment], now: u64) -> Cleaned
    ensures { CleansSegments now segments.now pen.old result pen.new }
{
    let mut retired = 0;
    for segment in segments {
        match clean_segment(pen, *segment, now) {
            Ok(_) => retired += 1,
            Err(refusal) => {
                return Cleaned {
                    retired,
                    refusal: Some(refusal),
                };
            }
        }
    }
    Cleaned {
        retired,
        refusal: None,
    }
}
