// Does the calls of a trace, one line for each: the file that the first argument names, or standard input without one. The
// last line is the CRC-32 of frame memory.
#![tactic(auto)]

ghost use Rattle.std.specs.Prelude.{true, ◌≡◌, length};
ghost use Rattle.tracing.specs.Trace.{held, begin_of, Reached};

use files::Said;
use model::State;
use std::io::Read;
use std::ops::ControlFlow;
use tracing::Step;

fn empty_record() -> [u8; 12]
    ensures { 12 ≡ length result }
{
    [0; 12]
}

// Reads a record, does it and writes its text: whether there is more to do. (It changes the state in place, since a state is
// large to hand out.)
fn do_record<R: Print + Eprint, I: Read>(
    rt: &R,
    source: &mut I,
    s: &mut State,
    ring: &mut [u32],
    frame: &mut [u8],
) -> ControlFlow<()>
    ensures { Reached (held s.old ring.old frame.old) (held s.new ring.new frame.new) }
{
    let mut part = empty_record();
    let Ok(n) = files::read(rt, source, &mut part) else {
        return ControlFlow::Break(());
    };
    let Step { text, state, flow } = tracing::next_step(&part[..n], *s, ring, frame);
    *s = state;
    match files::write(rt, text.as_bytes()) {
        Ok(()) => flow,
        Err(Said) => ControlFlow::Break(()),
    }
}

// Does the records after a trace's first words, each from what the last one left, to the end of the input or a bad record.
// The turns are so many that no run uses them up.
fn records<R: Print + Eprint, I: Read>(
    rt: &R,
    source: &mut I,
    head: &[u8],
    s: State,
    ring: &mut [u32],
    frame: &mut [u8],
) -> State
    requires { held s ring.old frame.old ≡ (begin_of head.now).held }
    ensures { Reached (begin_of head.now).held (held result ring.new frame.new) }
{
    let mut t = s;
    for _turn in 0..u64::MAX {
        if let ControlFlow::Break(()) = do_record(rt, source, &mut t, ring, frame) {
            return t;
        }
    }
    t
}

// Does the records on the first parts of two zeroed buffers, where setup lets the trace go on.
#[tactic(auto, using(tracing::specs::Trace::begun))]
fn go_on<R: Print + Eprint, I: Read>(rt: &R, source: &mut I, head: &[u8], s: State)
    requires more { (begin_of head.now).more ≡ true }
    requires state { s ≡ (begin_of head.now).held.state }
{
    let ringlength = recording::word_at(head, 0) as usize;
    let framelength = recording::word_at(head, 1) as usize;
    let mut ring = recording::ring_buffer();
    let mut frame = recording::frame_buffer();
    records(
        rt,
        source,
        head,
        s,
        &mut ring[..ringlength],
        &mut frame[..framelength],
    );
}

// Sets the engine up, writes the line of it, and goes on.
fn trace<R: Print + Eprint, I: Read>(rt: &R, source: &mut I, head: &[u8]) -> Result<(), Said> {
    let begin = tracing::first_step(head);
    files::write(rt, begin.text.as_bytes())?;
    if let ControlFlow::Continue(()) = begin.flow {
        go_on(rt, source, head, begin.state);
    }
    Ok(())
}

fn main(rt: HostRuntime) {
    let Ok(mut source) = files::open(&rt, rt.stdin()) else {
        return;
    };
    let mut head = [0u8; 8];
    if let Ok(n) = files::read(&rt, &mut source, &mut head) {
        let _ = trace(&rt, &mut source, &head[..n]);
    }
}
