// A queue of 16 bus words, oldest first. Push and pop leave zeros in the places past its length.
#![tactic(auto)]

ghost use Rattle.std.specs.Prelude.{◌≡◌, ◌+◌, ◌-◌, ◌<◌, ◌≤◌, ◌++◌, take, drop, replicate};
ghost use Rattle.model.specs.Queue.{empty_queue, is_full, pushed, oldest, popped};

use model::{QUEUE_WORDS, Queue, WIDE_QUEUE_WORDS};

#[tactic(auto, unfolding(model::specs::Queue::queue_of))]
pub fn empty() -> Queue
    ensures { result ≡ empty_queue }
{
    Queue {
        words: [0u32; WIDE_QUEUE_WORDS],
        len: 0,
    }
}

pub fn is_full(q: Queue) -> bool
    ensures { result ≡ is_full q }
{
    QUEUE_WORDS <= q.len
}

// `count` words of `old` from `from` on, and zeros after them.
fn kept(old: [u32; WIDE_QUEUE_WORDS], from: usize, count: usize) -> [u32; WIDE_QUEUE_WORDS]
    requires { from + count ≤ 16 }
    ensures { result ≡ take count (drop from old) ++ replicate (16 - count) 0 }
{
    let mut words = [0u32; WIDE_QUEUE_WORDS];
    words[..count].copy_from_slice(&old[from..from + count]);
    words
}

#[tactic(auto, using(crate::proofs::Places::stored_is_pushed))]
pub fn push(q: Queue, word: u32) -> Queue
    requires { q.len < 16 }
    ensures { result ≡ pushed q word }
{
    let n = q.len as usize;
    let mut words = kept(q.words, 0, n);
    words[n] = word;
    Queue {
        words,
        len: q.len + 1,
    }
}

#[tactic(auto, unfolding(model::specs::Queue::oldest, model::specs::Queue::held))]
pub fn oldest(q: Queue) -> u32
    requires { (0 < q.len) × (q.len ≤ 16) }
    ensures { result ≡ oldest q }
{
    q.words[0]
}

#[tactic(auto, using(crate::proofs::Places::kept_is_popped))]
pub fn pop(q: Queue) -> Queue
    requires { (0 < q.len) × (q.len ≤ 16) }
    ensures { result ≡ popped q }
{
    let n = q.len as usize;
    Queue {
        words: kept(q.words, 1, n - 1),
        len: q.len - 1,
    }
}
