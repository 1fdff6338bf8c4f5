// Row 3: whether a state that comes in is one that the engine can have handed out.
#![tactic(auto, using(judging::specs::Checks::refuses_number, crate::proofs::Places::pixel_good), unfolding(model::specs::Refusals::any, model::specs::Refusals::first))]

ghost use Rattle.std.specs.Prelude.{◌≡◌, ◌≤◌, ◌<◌};
ghost use Rattle.model.specs.Refusals.{first, any};
ghost use Rattle.model.specs.Limits.{ring_least};
ghost use Rattle.model.specs.Numbers.{number_of_check};
ghost use Rattle.model.specs.Formats.{Depth, format_of, depth_of};
ghost use Rattle.model.specs.Registers.{format_code};
ghost use Rattle.model.specs.Host.{host_word, first_of_word};
ghost use Rattle.model.specs.Unit.{pixel_count};
ghost use Rattle.model.specs.Calls.{bad_stop, pixel_tests, feed_tests, place_tests, setup_rules, unfit_tests};
ghost use Rattle.model.specs.declared.Place.TheVariants.{Drawing, Wanting, Fed};
ghost use Rattle.model.specs.declared.Primitive.TheVariants.{Blt as BltPrimitive};

use model::{
    COUNT_MOST, Core, FRAME_MOST, Feed, Place, Primitive, REGISTERS, RING_LEAST, RING_MOST,
    Refusal, STOP_LEAST, STOP_MOST,
};

// Refuses a length out of range.
pub fn check_lengths(ringlength: usize, framelength: usize) -> Result<(), Refusal>
    ensures { number_of_check result ≡ first (setup_rules ringlength framelength) }
{
    if ringlength < RING_LEAST || RING_MOST < ringlength {
        Err(Refusal::RingLength)
    } else if framelength == 0 || FRAME_MOST < framelength {
        Err(Refusal::FrameLength)
    } else {
        Ok(())
    }
}

// Whether a stop number is neither 0 nor one that stops the engine: any number, as a state that comes in has it.
fn bad_stop(stop: u32) -> bool
    ensures { result ≡ bad_stop stop }
{
    stop != 0 && (stop < STOP_LEAST || STOP_MOST < stop)
}

// Whether a command in progress is stopped, refused by judging, or past its last pixel.
fn bad_pixel(c: Core, primitive: Primitive, k: usize) -> bool
    ensures { result ≡ any (pixel_tests c primitive k) }
{
    c.stop != 0
        || judging::check(primitive, c.registers, c.framelength).is_err()
        || drawing::pixel_count(primitive, c.registers) <= k
}

// Or takes its pixels from data commands and is drawn without one.
fn bad_drawing(c: Core, write: usize, primitive: Primitive, k: usize) -> bool
    ensures { result ≡ any (place_tests c write (Drawing primitive k)) }
{
    bad_pixel(c, primitive, k) || drawing::takes_data(primitive, c.registers)
}

// Whether pixel k is the first of its data word.
fn is_first(registers: [u32; REGISTERS], k: usize) -> bool
    requires { (Depth (depth_of (format_of (format_code registers)))) × (k < pixel_count BltPrimitive registers) }
    ensures { result ≡ first_of_word registers k }
{
    k == 0 || host::word_of(registers, k - 1) < host::word_of(registers, k)
}

// Whether a BLT that wants data does not take its pixels from data commands, or stands within a word.
fn bad_wanting(c: Core, write: usize, k: usize) -> bool
    ensures { result ≡ any (place_tests c write (Wanting k)) }
{
    bad_pixel(c, Primitive::Blt, k)
        || !drawing::takes_data(Primitive::Blt, c.registers)
        || !is_first(c.registers, k)
}

// Whether an accepted data command does not feed pixel k, whose word is `word`, or would be refused, or does not wait whole.
fn bad_feed(c: Core, write: usize, k: usize, word: usize, feed: Feed) -> bool
    requires { (ring_least ≤ c.ringlength) × (c.read < c.ringlength) × (write < c.ringlength) × (word ≡ host_word c.registers k) }
    ensures { result ≡ any (feed_tests c write k feed) }
{
    let before = feed.before as usize;
    let count = feed.count as usize;
    let size = c.ringlength;
    let length = 2 + count;
    word < before
        || before + count <= word
        || COUNT_MOST < count
        || command::bad_data_count(size, count)
        || command::bad_return(size, c.read, length, feed.returns)
        || ring::waiting_words(size, c.read, write)
            < command::whole_words(size, c.read, length, feed.returns)
}

// Whether a BLT that a data command feeds is unfit.
fn bad_fed(c: Core, write: usize, k: usize, feed: Feed) -> bool
    requires { (ring_least ≤ c.ringlength) × (c.read < c.ringlength) × (write < c.ringlength) }
    ensures { result ≡ any (place_tests c write (Fed k feed)) }
{
    bad_pixel(c, Primitive::Blt, k)
        || !drawing::takes_data(Primitive::Blt, c.registers)
        || bad_feed(c, write, k, host::word_of(c.registers, k), feed)
}

fn bad_place(c: Core, write: usize) -> bool
    requires { (ring_least ≤ c.ringlength) × (c.read < c.ringlength) × (write < c.ringlength) }
    ensures { result ≡ any (place_tests c write c.place) }
{
    match c.place {
        Place::Idle => false,
        Place::Drawing(primitive, k) => bad_drawing(c, write, primitive, k),
        Place::Wanting(k) => bad_wanting(c, write, k),
        Place::Fed(k, feed) => bad_fed(c, write, k, feed),
    }
}

// Whether a core with this write pointer is unfit.
pub fn is_unfit(c: Core, write: usize) -> bool
    ensures { result ≡ any (unfit_tests c write) }
{
    check_lengths(c.ringlength, c.framelength).is_err()
        || c.ringlength <= c.read
        || c.ringlength <= write
        || bad_stop(c.stop)
        || bad_place(c, write)
}
