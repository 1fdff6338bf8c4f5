// Traces: setup, and one record after the other, each with its line.
#![tactic(auto)]

ghost use Rattle.std.specs.Prelude.{◌≡◌};
ghost use Rattle.tracing.specs.Trace.{asked, asked_frame, op_of, argument_of, good_begin, good_record, held, last_line, call_step, step_of, begin_of, Steps, Begins};

use model::{Answer, State};
use std::ops::ControlFlow;
use text::Text;

// ---- a record

// The call that a record asks for: a publish of a position, a run with a budget, or one of the two that take nothing.
#[derive(Clone, Copy)]
enum Call {
    Publish(usize),
    Run(u32),
    Room,
    Restart,
}

impl From<Call> for u32 {
    ghost from_gives = { λ call r. r ≡ op_of call };

    // Its number in a trace.
    fn from(call: Call) -> u32 {
        match call {
            Call::Publish(_) => 1,
            Call::Run(_) => 2,
            Call::Room => 3,
            Call::Restart => 4,
        }
    }
}

// A record of a trace: a store into the ring, or a call.
#[derive(Clone, Copy)]
enum Record {
    Store { at: usize, word: u32 },
    Called(Call),
}

// None of a record that is cut, has an unknown op or stores beyond the ring.
fn record_of(part: &[u8], ringlength: usize) -> Option<Record>
    ensures { result ≡ good_record part.now ringlength }
{
    if part.len() < 12 {
        return None;
    }
    let a = recording::word_at(part, 1);
    match recording::word_at(part, 0) {
        0 if (a as usize) < ringlength => Some(Record::Store {
            at: a as usize,
            word: recording::word_at(part, 2),
        }),
        1 => Some(Record::Called(Call::Publish(a as usize))),
        2 => Some(Record::Called(Call::Run(a))),
        3 => Some(Record::Called(Call::Room)),
        4 => Some(Record::Called(Call::Restart)),
        _ => None,
    }
}

// Makes a call. (As `drive::answer` does, whose promise is by the calls of demand 3; a trace's is by its ops.)
#[tactic(auto, unfolding(crate::specs::Trace::asked, crate::specs::Trace::asked_frame))]
fn ask(call: Call, s: State, ring: &[u32], frame: &mut [u8]) -> Answer
    ensures answer { result ≡ asked (op_of call) (argument_of call) s ring.now frame.old }
    ensures frame { frame.new ≡ asked_frame (op_of call) (argument_of call) s ring.now frame.old }
{
    match call {
        Call::Publish(position) => engine::publish(s, position),
        Call::Run(budget) => engine::run(ring, s, frame, budget),
        Call::Room => engine::room(s),
        Call::Restart => engine::restart(s),
    }
}

// ---- the steps

// What a part of a trace comes to: the text that it writes, the state then, and whether the trace goes on. (The state stands
// beside the flow, whose two cases would each take its room.)
#[derive(Clone, Copy)]
pub struct Step {
    pub text: Text,
    pub state: State,
    pub flow: ControlFlow<()>,
}

// The lengths of ring and frame memory: none where a trace has fewer than two words, or lengths that are too long.
fn lengths_of(head: &[u8]) -> Option<(usize, usize)>
    ensures { result ≡ good_begin head.now }
{
    if head.len() < 8 {
        return None;
    }
    let ringlength = recording::word_at(head, 0) as usize;
    let framelength = recording::word_at(head, 1) as usize;
    if recording::is_long(ringlength, framelength) {
        None
    } else {
        Some((ringlength, framelength))
    }
}

// Setup and its line, from a trace's first two words.
pub fn first_step(head: &[u8]) -> Step
    ensures { Begins (begin_of head.now) result }
{
    let Some((ringlength, framelength)) = lengths_of(head) else {
        return Step {
            text: text::bad_line(),
            state: engine::setup(0, 0).state,
            flow: ControlFlow::Break(()),
        };
    };
    let made = engine::setup(ringlength, framelength);
    Step {
        text: text::call_line(0, made),
        state: made.state,
        flow: if recording::is_refused(made) {
            ControlFlow::Break(())
        } else {
            ControlFlow::Continue(())
        },
    }
}

// The line after the last record: the checksum of frame memory at the end of the file, else `recording=bad`.
fn last_line(part: &[u8], frame: &[u8]) -> Text
    ensures { result ≡ last_line part.now frame.now }
{
    if part.is_empty() {
        text::crc_line(crc::crc32(frame))
    } else {
        text::bad_line()
    }
}

// The call of a record, and its line.
fn call_step(call: Call, s: State, ring: &[u32], frame: &mut [u8]) -> Step
    ensures { Steps (call_step (op_of call) (argument_of call) (held s ring.now frame.old)) result ring.now frame.new }
{
    let answer = ask(call, s, ring, frame);
    Step {
        text: text::call_line(u32::from(call), answer),
        state: answer.state,
        flow: ControlFlow::Continue(()),
    }
}

// One record: the next 12 bytes of a trace, or fewer where it ends.
pub fn next_step(part: &[u8], s: State, ring: &mut [u32], frame: &mut [u8]) -> Step
    ensures { Steps (step_of part.now (held s ring.old frame.old)) result ring.new frame.new }
{
    match record_of(part, ring.len()) {
        None => Step {
            text: last_line(part, frame),
            state: s,
            flow: ControlFlow::Break(()),
        },
        Some(Record::Store { at, word }) => {
            ring[at] = word;
            Step {
                text: Text::new(),
                state: s,
                flow: ControlFlow::Continue(()),
            }
        }
        Some(Record::Called(call)) => call_step(call, s, ring, frame),
    }
}
