// Replays a recording: the file that the first argument names, or standard input without one. Six lines say how it ended,
// or the one line recording=bad.
#![tactic(auto)]

fn main(rt: HostRuntime) {
    let Ok(mut source) = files::open(&rt, rt.stdin()) else {
        return;
    };
    let mut memory = recording::frame_buffer();
    let Ok(n) = files::read(&rt, &mut source, &mut memory) else {
        return;
    };
    let lines = recording::replay_text(&mut memory, n);
    let _ = files::write(&rt, lines.as_bytes());
}
