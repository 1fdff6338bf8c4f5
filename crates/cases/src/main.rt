// Runs the shop cases that document 01 does not mark and prints, for each, whether it comes out as it says.
#![tactic(auto)]

use files::Said;

// A ring of 1,024 words with one BLT at 0, all its words enabled: a solid fill of 5Ah by F0h, 8 bpp, 4 pixels wide, stride 16.
fn fill(offset: u32, height: u32) -> [u32; 1024] {
    let mut ring = [0u32; 1024];
    ring[0] = 0xFFFF;
    ring[1] = 0xF0;
    ring[2] = offset;
    ring[4] = 0x00100010;
    ring[5] = 0x00040000 | height;
    ring[8] = 0x5A;
    ring
}

// Replays a ring with write at 17 and a budget of 100, and answers whether it ends with these lines.
fn ends(ring: &[u32], frame: &mut [u8], lines: &[u8]) -> bool {
    let text = text::replay_lines(recording::replay(ring, frame, 17, 100));
    text.as_bytes() == lines
}

// The cases stand one by one, each with its own values, to be read beside the paper.
fn is_drawn_at_12() -> bool {
    let ring = fill(12, 1);
    let mut frame = [0u8; 16];
    let ended = ends(
        &ring,
        &mut frame,
        b"retired=1\nunits=5\nread=17\nwrite=17\nstate=waiting\nrefusal=0\n",
    );
    ended && frame == *b"\0\0\0\0\0\0\0\0\0\0\0\0ZZZZ"
}

fn is_refused_at_13() -> bool {
    let ring = fill(13, 1);
    let mut frame = [0u8; 16];
    let ended = ends(
        &ring,
        &mut frame,
        b"retired=0\nunits=1\nread=0\nwrite=17\nstate=stopped\nrefusal=27\n",
    );
    ended && frame == [0; 16]
}

// Bytes 10 to 13 and 26 to 29 become 5Ah, an ASCII Z.
fn is_example() -> bool {
    let ring = fill(10, 2);
    let mut frame = [0u8; 64];
    let ended = ends(
        &ring,
        &mut frame,
        b"retired=1\nunits=9\nread=17\nwrite=17\nstate=waiting\nrefusal=0\n",
    );
    ended
        && frame
            == *b"\0\0\0\0\0\0\0\0\0\0ZZZZ\0\0\0\0\0\0\0\0\0\0\0\0ZZZZ\0\0\0\0\0\0\0\0\0\0\0\0\0\0\0\0\0\0\0\0\0\0\0\0\0\0\0\0\0\0\0\0\0\0"
}

fn print<R: Print + Eprint>(rt: &R, name: &[u8], fine: bool) -> Result<(), Said> {
    files::write(rt, name)?;
    files::write(rt, if fine { b"=ok\n" } else { b"=WRONG\n" })
}

fn print_all<R: Print + Eprint>(rt: &R) -> Result<(), Said> {
    print(rt, b"row_of_4_at_12_drawn", is_drawn_at_12())?;
    print(rt, b"row_of_4_at_13_refused_by_27", is_refused_at_13())?;
    print(rt, b"replay_example", is_example())
}

fn main(rt: HostRuntime) {
    let _ = print_all(&rt);
}
