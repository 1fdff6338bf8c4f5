// The engine for a program in another language to measure: functions with plain numbers and runs of bytes.
#![tactic(auto)]

ghost use Rattle.std.specs.Prelude.{◌≡◌};
ghost use Rattle.recording.specs.Replay.{replay, replay_frame};
ghost use Rattle.bench.specs.Numbers.{Told};
ghost use Rattle.bench.specs.Lists.{is_list, driven, Drove};

use drive::Driven;

// Setup for the ring and the frame memory lent, one publish and one run, up to the first call that is refused. Answers the
// units done; `retired` gets the completion number, `number` that of the refusal or of the stop, or 0.
#[unsafe(no_mangle)]
pub extern "C" fn bench_draw(
    ring: &[u32],
    frame: &mut [u8],
    write: usize,
    budget: u32,
    retired: &mut u32,
    number: &mut u32,
) -> u32
    ensures told { Told (replay ring.now frame.old write budget) result retired.new number.new }
    ensures frame_after { frame.new ≡ replay_frame ring.now frame.old write budget }
{
    let a = recording::replay(ring, frame, write, budget);
    let parts = text::parts_of(a);
    *retired = a.state.core.completion;
    *number = parts.last;
    parts.units
}

// Whether so many positions and budgets serve for so many calls, and these are few enough that the sum of their units fits.
fn is_list(calls: usize, positions: usize, budgets: usize) -> bool
    ensures { result ≡ is_list calls positions budgets }
{
    calls <= positions && calls <= budgets && calls <= 4294967295
}

// Setup for the ring and the frame memory lent, then a list of calls: call i is of kind kinds[i], 0 publishes positions[i], 1
// runs with budgets[i], 2 asks for room, any other restarts. Answers the sum of their units; `retired` gets the completion
// number. Where the lists do not serve, no call is made.
#[unsafe(no_mangle)]
pub extern "C" fn bench_drive(
    ring: &[u32],
    frame: &mut [u8],
    kinds: &[u8],
    positions: &[usize],
    budgets: &[u32],
    retired: &mut u32,
) -> u64
    ensures { Drove (driven ring.now frame.old kinds.now positions.now budgets.now) result retired.new frame.new }
{
    let s = engine::setup(ring.len(), frame.len()).state;
    let end = if is_list(kinds.len(), positions.len(), budgets.len()) {
        drive::drive(kinds, positions, budgets, ring, s, frame)
    } else {
        Driven { state: s, sum: 0 }
    };
    *retired = end.state.core.completion;
    end.sum
}
