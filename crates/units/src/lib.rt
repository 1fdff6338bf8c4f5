// Units of work: the load of a command, spans of pixels, and as many as a budget allows. The inner functions are handed the write
// pointer, not the state, and are lent the core and the lookup table, which change in place: no unit copies them. What they are lent
// stands as parameters: `WellFormed` ties it together.
#![tactic(auto)]

ghost use Rattle.std.specs.Prelude.{◌≡◌, ◌+◌, ◌*◌, ◌<◌, ◌≤◌, true, false, ◌||◌, length, Some};
ghost use Rattle.model.specs.Limits.{frame_most, side_most};
ghost use Rattle.model.specs.Completion.{retired};
ghost use Rattle.model.specs.Numbers.{number};
ghost use Rattle.model.specs.Unit.{stopped, place_after, pixels_drawn, wants, pixel_count, drawn_core, fed_core, drawing, ready};
ghost use Rattle.model.specs.Steps.{machine};
ghost use Rattle.laws.specs.Fit.{Fit, FitPlace, FitFed};
ghost use Rattle.laws.specs.WellFormed.{WellFormed};
ghost use Rattle.units.specs.Turns.{FitCore, Loadable, Fillable, Acceptable, Feedable, load_unit, table_unit, command_core, command_table, Painted, FedOn, hosts, Advanced, Plain, Stepped, Finished, word_of};

use command::{Head, Seen};
use model::{Core, Feed, Kind, Place, Primitive, REGISTERS, Refusal, RunWord, TABLE};

// ---- what a unit changes of the core

// The completion number once one more command is retired.
#[tactic(auto, unfolding(model::specs::Completion::retired))]
fn retire(completion: u32) -> u32
    ensures { result ≡ retired completion }
{
    completion.wrapping_add(1)
}

// Stops the core for a refusal; a BLT that wants data is abandoned.
#[tactic(auto, unfolding(model::specs::Unit::stopped))]
fn halt(core: &mut Core, refusal: Refusal)
    ensures { core.new ≡ stopped core.old (number refusal) }
{
    // a number: a state that comes in may hold any, and row 3 refuses it then
    core.stop = u32::from(refusal);
    core.place = Place::Idle;
}

// ---- commands

// Where what is loaded begins: a BLT with host source by wanting data.
fn first_place(primitive: Primitive, registers: [u32; REGISTERS]) -> Place
    ensures { result ≡ place_after (Some primitive) registers }
{
    if drawing::takes_data(primitive, registers) {
        Place::Wanting(0)
    } else {
        Place::Drawing(primitive, 0)
    }
}

// Loads the whole BLT or vector at the read pointer, or refuses it by judging.
fn load(core: &mut Core, ring: &[u32], header: u32, drawn: Option<Primitive>, next: usize)
    requires { Loadable ring.now core.old header drawn next }
    ensures { core.new ≡ load_unit ring.now core.old }
{
    let registers = command::load(core.registers, ring, core.read, header);
    match drawn {
        None => {
            core.registers = registers;
            core.read = next;
            core.completion = retire(core.completion);
            core.place = Place::Idle;
        }
        Some(primitive) => match judging::check(primitive, registers, core.framelength) {
            Ok(()) => {
                core.registers = registers;
                core.read = next;
                core.place = first_place(primitive, registers);
            }
            Err(refusal) => halt(core, refusal),
        },
    }
}

// Loads the whole table load at the read pointer: its data are in the table then.
fn fill(
    core: &mut Core,
    table: &mut [u32; TABLE],
    ring: &[u32],
    header: u32,
    count: usize,
    next: usize,
)
    requires { Fillable ring.now core.old header count next }
    ensures core { core.new ≡ load_unit ring.now core.old }
    ensures table { table.new ≡ table_unit ring.now core.old table.old }
{
    core.registers = command::load_table(core.registers, table, ring, core.read, header, count);
    core.read = next;
    core.completion = retire(core.completion);
    core.place = Place::Idle;
}

// How many pixels of the command in progress are drawn.
fn pixels_drawn(place: Place) -> usize
    ensures { result ≡ pixels_drawn place }
{
    match place {
        Place::Idle => 0,
        Place::Drawing(_, k) | Place::Wanting(k) | Place::Fed(k, _) => k,
    }
}

// Accepts the whole data command at the read pointer.
fn accept(core: &mut Core, ring: &[u32], count: u32, returns: bool)
    requires { Acceptable ring.now core.old count returns }
    ensures { core.new ≡ load_unit ring.now core.old }
{
    let k = pixels_drawn(core.place);
    let before = host::word_of(core.registers, k) as u32;
    let feed = Feed {
        before,
        count,
        returns,
    };
    core.place = Place::Fed(k, feed);
}

// ---- pixels

// Moves the core on to where k pixels of its command are drawn.
#[tactic(auto, unfolding(model::specs::Unit::drawn_core))]
fn move_on(core: &mut Core, primitive: Primitive, k: usize)
    ensures { core.new ≡ drawn_core core.old primitive k }
{
    if drawing::pixel_count(primitive, core.registers) <= k {
        core.completion = retire(core.completion);
        core.place = Place::Idle;
    } else {
        core.place = Place::Drawing(primitive, k);
    }
}

// How many of the pixels from k on a budget allows.
fn span(primitive: Primitive, registers: [u32; REGISTERS], k: usize, left: u32) -> u32
    requires further { k < pixel_count primitive registers }
    requires some_left { 0 < left }
    ensures some { 0 < result }
    ensures most { result ≤ left }
    ensures within { k + result ≤ pixel_count primitive registers }
    ensures small { k + result ≤ side_most * side_most }
{
    let rest = drawing::pixel_count(primitive, registers) - k;
    rest.min(left as usize) as u32
}

// Moves the core on to where k pixels of a BLT are drawn that a data command feeds: the read pointer passes it with the last of them.
#[tactic(auto, unfolding(model::specs::Unit::fed_core))]
fn feed_on(core: &mut Core, k: usize, feed: Feed)
    requires { Feedable core.old k feed }
    ensures { core.new ≡ fed_core core.old k feed }
{
    let count = feed.count as usize;
    let end = feed.before as usize + count;
    let next = command::read_after(core.ringlength, core.read, 2 + count, feed.returns);
    if drawing::pixel_count(Primitive::Blt, core.registers) <= k {
        core.read = next;
        core.completion = retire(core.completion);
        core.place = Place::Idle;
    } else if end <= host::word_of(core.registers, k) {
        core.read = next;
        core.place = Place::Wanting(k);
    } else {
        core.place = Place::Fed(k, feed);
    }
}

// ---- units

// Units done one after the other, and the core after them.
#[derive(Clone, Copy)]
pub struct Turn {
    pub core: Core,
    pub used: u32,
}

// Whether a BLT wants data.
fn is_wanting(place: Place) -> bool
    ensures { result ≡ wants place }
{
    matches!(place, Place::Wanting(_))
}

// Whether a pixel can be drawn.
fn is_drawing(place: Place) -> bool
    ensures { result ≡ drawing place }
{
    matches!(place, Place::Drawing(_, _) | Place::Fed(_, _))
}

// Does the unit of an engine with nothing in progress: the command at the read pointer is loaded or refused. Nothing is done where it
// waits.
fn take(core: &mut Core, write: usize, ring: &[u32], table: &mut [u32; TABLE]) -> bool
    requires fit { FitCore core.old write (length ring.now) }
    requires idle { wants core.old.place ≡ false }
    ensures taken { result ≡ ready ring.now core.old write }
    ensures core { core.new ≡ command_core ring.now core.old write }
    ensures table { table.new ≡ command_table ring.now core.old write table.old }
{
    let header = ring[core.read];
    let head = Head {
        size: core.ringlength,
        read: core.read,
        header,
        counted: command::count_word(ring, core.read, Kind::Table),
    };
    match head.look(false, write) {
        Seen::Refused(refusal) => halt(core, refusal),
        Seen::Whole { drawn, next } => load(core, ring, header, drawn, next),
        Seen::Table { count, next } => fill(core, table, ring, header, count, next),
        // nobody wants data
        Seen::Waits | Seen::Data { .. } => return false,
    }
    true
}

// Does the unit of a BLT that wants data: the data command at the read pointer is accepted, any other command is refused. Nothing is
// done where it waits.
fn take_data(core: &mut Core, write: usize, ring: &[u32]) -> bool
    requires fit { Fit core.old write }
    requires ring_is { length ring.now ≡ core.old.ringlength }
    requires wanting { wants core.old.place ≡ true }
    ensures taken { result ≡ ready ring.now core.old write }
    ensures core { core.new ≡ command_core ring.now core.old write }
{
    let header = ring[core.read];
    let head = Head {
        size: core.ringlength,
        read: core.read,
        header,
        counted: command::count_word(ring, core.read, command::kind_of(header)),
    };
    match head.look(true, write) {
        Seen::Refused(refusal) => halt(core, refusal),
        Seen::Data { count, returns } => accept(core, ring, count, returns),
        // no other command is accepted
        Seen::Waits | Seen::Whole { .. } | Seen::Table { .. } => return false,
    }
    true
}

// Draws as many pixels of the command in progress as the budget allows.
fn paint(
    core: &mut Core,
    primitive: Primitive,
    k: usize,
    table: &[u32; TABLE],
    frame: &mut [u8],
    left: u32,
) -> u32
    requires fit { FitPlace core.old primitive k }
    requires frame_is { length frame.old ≡ core.old.framelength }
    requires frame_small { core.old.framelength ≤ frame_most }
    requires some_left { 0 < left }
    ensures { Painted core.old primitive k table.now frame.old frame.new left core.new result }
{
    let used = span(primitive, core.registers, k, left);
    let more = used as usize;
    drawing::draw(frame, primitive, core.registers, table, k, more);
    move_on(core, primitive, k + more);
    used
}

// Draws as many pixels as a data command feeds and the budget allows: those of the row that is begun first. So `host::draw` has two
// callers, and the compiler keeps it out of the way of other commands.
fn feed_pixels(
    core: &mut Core,
    write: usize,
    k: usize,
    feed: Feed,
    ring: &[u32],
    table: &[u32; TABLE],
    frame: &mut [u8],
    left: u32,
) -> u32
    requires fit { FitFed core.old write k feed }
    requires wellformed { WellFormed ring.now write (machine core.old table.now frame.old) }
    requires some_left { 0 < left }
    ensures { FedOn ring.now core.old k feed table.now frame.old frame.new left core.new result }
{
    let registers = core.registers;
    let before = feed.before as usize;
    let end = before + feed.count as usize;
    let used = host::span(registers, k, end, left);
    let more = used as usize;
    let first = host::row_rest(registers, k, more);
    host::draw(frame, ring, registers, table, core.read, before, k, first);
    host::draw(
        frame,
        ring,
        registers,
        table,
        core.read,
        before,
        k + first,
        more - first,
    );
    feed_on(core, k + more, feed);
    used
}

// Does the next units of an engine without a BLT that takes data, if the budget allows any and any can be done: a command's load or
// refusal, or a span of pixels. It answers how many; none, not 0, where nothing is done.
fn advance(
    core: &mut Core,
    write: usize,
    ring: &[u32],
    table: &mut [u32; TABLE],
    frame: &mut [u8],
    left: u32,
) -> Option<u32>
    requires { WellFormed ring.now write (machine core.old table.old frame.old) }
    ensures { Advanced (hosts core.old.place ≡ false) ring.now write (machine core.old table.old frame.old) (machine core.new table.new frame.new) left result }
{
    if left == 0 || core.stop != 0 {
        return None;
    }
    match core.place {
        Place::Idle => take(core, write, ring, table).then_some(1),
        Place::Drawing(primitive, k) => Some(paint(core, primitive, k, table, frame, left)),
        Place::Wanting(_) | Place::Fed(_, _) => None,
    }
}

// As many such units as can be done one after the other, and as the budget allows. This loop does not know data commands: it is the one
// that has to be fast. (No index is counted: `advance` says how many units it did.)
fn do_plain(
    c: Core,
    write: usize,
    ring: &[u32],
    table: &mut [u32; TABLE],
    frame: &mut [u8],
    budget: u32,
) -> Turn
    requires { WellFormed ring.now write (machine c table.old frame.old) }
    ensures { Plain ring.now write (machine c table.old frame.old) (machine result.core table.new frame.new) budget result.used }
{
    let mut core = c;
    let mut used = 0;
    while let Some(more) = advance(&mut core, write, ring, table, frame, budget - used) {
        used += more;
    }
    Turn { core, used }
}

// Does the next units of a BLT that takes data, if the budget allows any and any can be done: accepts a data command, or draws what
// it feeds.
fn advance_data(
    core: &mut Core,
    write: usize,
    ring: &[u32],
    table: &[u32; TABLE],
    frame: &mut [u8],
    left: u32,
) -> Option<u32>
    requires { WellFormed ring.now write (machine core.old table.now frame.old) }
    ensures { Advanced (hosts core.old.place ≡ true) ring.now write (machine core.old table.now frame.old) (machine core.new table.now frame.new) left result }
{
    if left == 0 || core.stop != 0 {
        return None;
    }
    match core.place {
        Place::Wanting(_) => take_data(core, write, ring).then_some(1),
        Place::Fed(k, feed) => Some(feed_pixels(core, write, k, feed, ring, table, frame, left)),
        Place::Idle | Place::Drawing(_, _) => None,
    }
}

// Does the next units of a BLT that takes data, and those after them up to the next such BLT, if the budget allows any and any can be
// done.
fn advance_both(
    core: &mut Core,
    write: usize,
    ring: &[u32],
    table: &mut [u32; TABLE],
    frame: &mut [u8],
    left: u32,
) -> Option<u32>
    requires { WellFormed ring.now write (machine core.old table.old frame.old) }
    ensures { Stepped ring.now write (machine core.old table.old frame.old) (machine core.new table.new frame.new) left result }
{
    let used = advance_data(core, write, ring, table, frame, left)?;
    let plain = do_plain(*core, write, ring, table, frame, left - used);
    *core = plain.core;
    Some(used + plain.used)
}

// Does units until no further one can be done or the budget is used, from where none can be done without a BLT that takes data. (Beside
// `do_plain` it has another turn and another promise; one loop for both would be handed both.)
fn go_on(
    c: Core,
    write: usize,
    ring: &[u32],
    table: &mut [u32; TABLE],
    frame: &mut [u8],
    budget: u32,
) -> Turn
    requires { Plain ring.now write (machine c table.old frame.old) (machine c table.old frame.old) budget 0 }
    ensures { Finished ring.now write (machine c table.old frame.old) (machine result.core table.new frame.new) budget result.used }
{
    let mut core = c;
    let mut used = 0;
    while let Some(more) = advance_both(&mut core, write, ring, table, frame, budget - used) {
        used += more;
    }
    Turn { core, used }
}

// Does units until no further one can be done or the budget is used.
pub fn do_units(
    c: Core,
    write: usize,
    ring: &[u32],
    table: &mut [u32; TABLE],
    frame: &mut [u8],
    budget: u32,
) -> Turn
    requires { WellFormed ring.now write (machine c table.old frame.old) }
    ensures { Finished ring.now write (machine c table.old frame.old) (machine result.core table.new frame.new) budget result.used }
{
    let plain = do_plain(c, write, ring, table, frame, budget);
    let rest = go_on(plain.core, write, ring, table, frame, budget - plain.used);
    Turn {
        core: rest.core,
        used: plain.used + rest.used,
    }
}

// Whether the command at the read pointer can be loaded or refused.
fn is_ready(c: Core, write: usize, ring: &[u32]) -> bool
    requires { FitCore c write (length ring.now) }
    ensures { result ≡ ready ring.now c write }
{
    let header = ring[c.read];
    let head = Head {
        size: c.ringlength,
        read: c.read,
        header,
        counted: command::count_word(ring, c.read, command::kind_of(header)),
    };
    head.is_ready(is_wanting(c.place), write)
}

// Whether an engine that has not stopped can do a further unit.
fn goes_on(c: Core, write: usize, ring: &[u32]) -> bool
    requires { FitCore c write (length ring.now) }
    ensures { result ≡ (drawing c.place || ready ring.now c write) }
{
    is_drawing(c.place) || is_ready(c, write, ring)
}

// The word that a run reports of the core that it leaves.
#[tactic(auto, unfolding(model::specs::Calls::run_word, model::specs::Unit::possible))]
pub fn word_of(c: Core, write: usize, ring: &[u32]) -> RunWord
    requires { FitCore c write (length ring.now) }
    ensures { result ≡ word_of ring.now c write }
{
    if c.stop != 0 {
        RunWord::Stopped
    } else if goes_on(c, write, ring) {
        RunWord::Spent
    } else {
        RunWord::Waiting
    }
}
