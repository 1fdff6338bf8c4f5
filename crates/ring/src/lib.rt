// The ring's arithmetic, and its words by wrapped position. Pointers are below the ring size.
// (Size and pointers are the state's own numbers, and two or three stand in a contract; a struct would be made for one call each.)
#![tactic(auto, unfolding(model::specs::Ring::waiting, model::specs::Ring::room))]

ghost use Rattle.std.specs.Prelude.{◌≡◌, ◌<◌, ◌≤◌, length};
ghost use Rattle.model.specs.Numbers.{number_of_check};
ghost use Rattle.model.specs.Refusals.{first};
ghost use Rattle.model.specs.Ring.{distance, waiting, room, position_rules, word_at};

use model::Refusal;

// How many words lead from one position on to another.
fn gap(size: usize, from: usize, to: usize) -> usize
    requires from_in { from < size }
    requires to_in { to < size }
    ensures is { result ≡ distance size from to }
    ensures within { result < size }
{
    if from <= to {
        to - from
    } else {
        size - from + to
    }
}

// How many words wait.
pub fn waiting_words(size: usize, read: usize, write: usize) -> usize
    requires { (read < size) × (write < size) }
    ensures { (result ≡ waiting size read write) × (result < size) }
{
    gap(size, read, write)
}

// How many words may still be published.
pub fn room_left(size: usize, read: usize, write: usize) -> usize
    requires { (read < size) × (write < size) }
    ensures { result ≡ room size read write }
{
    size - 1 - waiting_words(size, read, write)
}

// Whether position p may be published, for any p.
pub fn check_position(size: usize, read: usize, write: usize, p: usize) -> Result<(), Refusal>
    requires { (read < size) × (write < size) }
    ensures { number_of_check result ≡ first (position_rules size read write p) }
{
    if size <= p {
        Err(Refusal::NoPosition)
    } else if gap(size, read, p) < waiting_words(size, read, write) {
        Err(Refusal::NoRoom)
    } else {
        Ok(())
    }
}

// Word number i from position at, across the ring's end.
pub fn word_at(ring: &[u32], at: usize, i: usize) -> u32
    requires { (at < length ring.now) × (i ≤ length ring.now) }
    ensures { result ≡ word_at ring.now at i }
{
    let size = ring.len();
    let ahead = at + i;
    if ahead < size {
        ring[ahead]
    } else {
        ring[ahead - size]
    }
}
