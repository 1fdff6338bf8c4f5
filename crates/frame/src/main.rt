// Replays a recording, as the program replay does, and writes the bytes of frame memory as the replay leaves it: none of a
// bad recording, and none where setup is refused.
#![tactic(auto)]

fn main(rt: HostRuntime) {
    let Ok(mut source) = files::open(&rt, rt.stdin()) else {
        return;
    };
    let mut memory = recording::frame_buffer();
    let Ok(n) = files::read(&rt, &mut source, &mut memory) else {
        return;
    };
    let k = recording::replay_frame(&mut memory, n);
    let _ = files::write(&rt, &memory[..k]);
}
