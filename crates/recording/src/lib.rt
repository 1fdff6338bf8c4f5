// Recordings: the words of a file, and the replay of the calls that it asks for.
#![tactic(auto)]

ghost use Rattle.std.specs.Prelude.{◌≡◌, ◌+◌, ◌*◌, ◌≤◌, length, take, replicate};
ghost use Rattle.io.specs.Counts.{IsPrefixLen};
ghost use Rattle.text.specs.Buffers.{Holds};
ghost use Rattle.recording.specs.Replay.{ring_limit, frame_limit, bad_lengths, is_refused, played, played_frame, replay, replay_frame};
ghost use Rattle.recording.specs.Recording.{file_word, file_words, good_head, Loads, size_of_frame, frame_bytes, replay_text};

use model::{Answer, Reply, State};
use pixel::Pixel;
use text::Text;

// ---- the file

// The longest ring, in words, and the longest frame memory, in bytes, that the programs take.
pub const RING_LIMIT: usize = 4096;

pub const FRAME_LIMIT: usize = 32768;

// Whether a ring or a frame memory is longer.
pub fn is_long(ringlength: usize, framelength: usize) -> bool
    ensures { result ≡ bad_lengths ringlength framelength }
{
    RING_LIMIT < ringlength || FRAME_LIMIT < framelength
}

// Word number i of a file.
pub fn word_at(file: &[u8], i: usize) -> u32
    requires { 4 * i + 4 ≤ length file.now }
    ensures { result ≡ file_word file.now i }
{
    u32::load(file, 4 * i)
}

// A recording's first words.
#[derive(Clone, Copy)]
struct Head {
    ringlength: usize,
    framelength: usize,
    write: usize,
    budget: u32,
}

// None of a bad recording.
#[tactic(auto, using(crate::proofs::Files::short_bad), unfolding(crate::specs::Recording::bad_recording))]
fn head_of(file: &[u8]) -> Option<Head>
    ensures { result ≡ good_head file.now }
{
    if file.len() < 16 {
        return None;
    }
    let head = Head {
        ringlength: word_at(file, 0) as usize,
        framelength: word_at(file, 1) as usize,
        write: word_at(file, 2) as usize,
        budget: word_at(file, 3),
    };
    if is_long(head.ringlength, head.framelength) || file.len() != 4 * (4 + head.ringlength) {
        None
    } else {
        Some(head)
    }
}

// Fills a ring with a recording's words.
fn read_words(file: &[u8], ring: &mut [u32])
    requires { 4 * (4 + length ring.old) ≤ length file.now }
    ensures { ring.new ≡ file_words file.now 4 (length ring.old) }
{
    for (i, word) in ring.iter_mut().enumerate() {
        *word = word_at(file, 4 + i);
    }
}

// Takes a recording out of a file: its first words, and its ring into the first part of a buffer. None of a bad one.
#[tactic(auto, using(crate::proofs::Files::taken, crate::proofs::Files::ring_in, crate::proofs::Files::words_in, crate::proofs::Files::loaded))]
fn load(file: &[u8], ring: &mut [u32]) -> Option<Head>
    requires { ring_limit ≤ length ring.old }
    ensures { Loads file.now ring.new result }
{
    let head = head_of(file)?;
    read_words(file, &mut ring[..head.ringlength]);
    Some(head)
}

// ---- the calls

// Whether a call is refused.
pub fn is_refused(a: Answer) -> bool
    ensures { result ≡ is_refused a }
{
    match a.reply {
        Reply::Refused(number) => number != 0,
        Reply::Accepted { .. } | Reply::Ran { .. } => false,
    }
}

// One publish and one run: the answer of the run, or of the publish where it is refused.
#[tactic(auto, unfolding(crate::specs::Replay::played, crate::specs::Replay::played_frame))]
fn publish_and_run(ring: &[u32], s: State, frame: &mut [u8], write: usize, budget: u32) -> Answer
    ensures answer { result ≡ played ring.now s frame.old write budget }
    ensures frame { frame.new ≡ played_frame ring.now s frame.old write budget }
{
    let told = engine::publish(s, write);
    if is_refused(told) {
        told
    } else {
        engine::run(ring, told.state, frame, budget)
    }
}

// Setup, one publish and one run: the answer of the run, or of the first call that is refused.
#[tactic(auto, unfolding(crate::specs::Replay::replay, crate::specs::Replay::replay_frame))]
pub fn replay(ring: &[u32], frame: &mut [u8], write: usize, budget: u32) -> Answer
    ensures answer { result ≡ replay ring.now frame.old write budget }
    ensures frame { frame.new ≡ replay_frame ring.now frame.old write budget }
{
    let made = engine::setup(ring.len(), frame.len());
    if is_refused(made) {
        made
    } else {
        publish_and_run(ring, made.state, frame, write, budget)
    }
}

// How much frame memory a recording has: none where setup is refused.
fn frame_size(head: Head) -> usize
    ensures { result ≡ size_of_frame head }
{
    if is_refused(engine::setup(head.ringlength, head.framelength)) {
        0
    } else {
        head.framelength
    }
}

// ---- the replay of a recording

// Buffers for the longest ring and the longest frame memory.
pub fn ring_buffer() -> [u32; RING_LIMIT]
    ensures { result ≡ replicate ring_limit 0 }
{
    [0; RING_LIMIT]
}

pub fn frame_buffer() -> [u8; FRAME_LIMIT]
    ensures { result ≡ replicate frame_limit 0 }
{
    [0; FRAME_LIMIT]
}

// Replays a recording that is taken out of its file, on a frame memory that becomes zero first.
fn play(head: Head, ring: &[u32], frame: &mut [u8]) -> Answer
    ensures answer { result ≡ replay ring.now (replicate (length frame.old) 0) head.write head.budget }
    ensures frame { frame.new ≡ replay_frame ring.now (replicate (length frame.old) 0) head.write head.budget }
{
    frame.fill(0);
    replay(ring, frame, head.write, head.budget)
}

// The lines of a replay of the file in the first n bytes of a buffer, which becomes frame memory. (File, ring and frame memory
// together would be more than 64 KiB, so the two cannot be lent apart. The engine state, with its table of 2 KiB, is no buffer:
// it goes in and comes back by value.)
#[tactic(auto, using(crate::proofs::Files::frame_in, crate::proofs::Files::answer_is), unfolding(crate::specs::Recording::replay_text))]
pub fn replay_text(memory: &mut [u8], n: usize) -> Text
    requires within { IsPrefixLen n memory.old }
    requires room { frame_limit ≤ length memory.old }
    ensures { result ≡ replay_text (take n memory.old) }
{
    let mut ring = ring_buffer();
    match load(&memory[..n], &mut ring) {
        Some(head) => text::replay_lines(play(
            head,
            &ring[..head.ringlength],
            &mut memory[..head.framelength],
        )),
        None => text::bad_line(),
    }
}

// Frame memory after a replay, from the start of the same buffer, and its length.
#[tactic(auto, using(crate::proofs::Files::frame_in, crate::proofs::Files::bad_held))]
pub fn replay_frame(memory: &mut [u8], n: usize) -> usize
    requires within { IsPrefixLen n memory.old }
    requires room { frame_limit ≤ length memory.old }
    ensures { Holds (frame_bytes (take n memory.old)) memory.new result }
{
    let mut ring = ring_buffer();
    let Some(head) = load(&memory[..n], &mut ring) else {
        return 0;
    };
    play(
        head,
        &ring[..head.ringlength],
        &mut memory[..head.framelength],
    );
    frame_size(head)
}
