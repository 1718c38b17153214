// An answer in its bytes: the number answered, and the state of the operation's queue just after it.
use crate::operation::Action;
use queue::lists::Lists;
use rules::Part;
use runqueue::rq::RunQueue;
use thread::NONE;

// A bucket of a part.
#[derive(Clone, Copy)]
struct Place {
    part: Part,
    bucket: u8,
}

// The bucket whose last thread is this one.
fn bucket_of(lists: Lists, thread: u64) -> Option<u8> {
    let mut ends = lists.heads.iter().zip(&lists.tails);
    let bucket = ends.position(|(first, last)| *first != NONE && *last == thread)?;
    Some(bucket as u8)
}

// Where a thread is the last of its bucket.
fn place_of(q: RunQueue, thread: u64) -> Option<Place> {
    let parts = [
        (Part::Realtime, q.realtime.queues),
        (Part::Timeshare, q.timeshare.queues),
        (Part::Idle, q.idle.queues),
    ];
    parts.into_iter().find_map(|(part, lists)| {
        let bucket = bucket_of(lists, thread)?;
        Some(Place { part, bucket })
    })
}

fn low_byte(n: u64) -> u8 {
    n.to_le_bytes()[0]
}

// What is wider than its place is cut. An insert answers whether the thread came in above the idle part; the place of any other is 255. A part is 0 realtime, 1
// timeshare, 2 idle.
pub fn answer(q: RunQueue, action: Action, number: u64) -> [u8; 48] {
    let (place, number) = match action {
        Action::Insert(put) => {
            let place = place_of(q, put.thread);
            let above_idle = place.is_some_and(|place| !matches!(place.part, Part::Idle));
            (place, u64::from(above_idle))
        }
        _ => (None, number),
    };
    let [part, bucket] = place.map_or([255, 255], |place| [place.part as u8, place.bucket]);
    let mut out = [0u8; 48];
    out[..8].copy_from_slice(&number.to_le_bytes());
    out[8..12].copy_from_slice(&q.load.to_le_bytes()[..4]);
    out[12..16].copy_from_slice(&q.timeshare_load.to_le_bytes()[..4]);
    out[16..20].copy_from_slice(&q.movable.to_le_bytes()[..4]);
    out[20..24].copy_from_slice(&q.current_priority.to_le_bytes()[..4]);
    out[24] = low_byte(q.timeshare.insert_idx);
    out[25] = low_byte(q.timeshare.take_idx);
    out[26] = part;
    out[27] = bucket;
    out[28] = u8::from(q.is_empty());
    out[32..40].copy_from_slice(&q.timeshare.priorities.map(low_byte));
    out[40..].copy_from_slice(&q.last_tick.to_le_bytes());
    out
}
