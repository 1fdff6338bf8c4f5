// One pixel: its bytes in frame memory, the raster operation on it, and the mono pattern's bit for it.
// `Depth depth` stands in the contracts, here and above, where the bytes a pixel come out of a rectangle: its field holds any number, and a
// type for them would be made of it anew, with the same fact to prove, at each call.
#![tactic(auto)]

mod width;

ghost use Rattle.std.specs.Prelude.{◌≡◌, ◌+◌, ◌*◌, ◌%◌, ◌≤◌, ◌<◌, length, if◌then◌else◌};
ghost use Rattle.model.specs.Choice.{◌<?◌};
ghost use Rattle.model.specs.Formats.{Depth};
ghost use Rattle.model.specs.Pixel.{read_pixel, store_pixel};
ghost use Rattle.model.specs.Raster.{raster};
ghost use Rattle.model.specs.Pattern.{pattern_bit, pattern_index};
ghost use Rattle.laws.specs.Whole.{mask, choice, by_pattern, blended, flip_of, keep_of};
ghost use Rattle.laws.specs.Patterns.{Turned};
ghost use Rattle.laws.specs.Changes.{changed};
ghost use Rattle.laws.specs.Plain.{flip_unless, keep_unless, picked, Narrow};

pub use width::Pixel;

// ---- any depth

// The value of the pixel at a byte of frame memory, at any depth. (It gives a value and `put` takes one: each has the choice once.)
pub fn get(depth: usize, f: &[u8], at: usize) -> u32
    requires { (Depth depth) × (at + depth ≤ length f.now) }
    ensures { result ≡ read_pixel depth f.now at }
{
    match depth {
        1 => u8::load(f, at).wide(),
        2 => u16::load(f, at).wide(),
        _ => u32::load(f, at),
    }
}

// Writes a value's low bytes at a byte of frame memory, at any depth.
pub fn put(depth: usize, f: &mut [u8], at: usize, value: u32)
    requires { (Depth depth) × (at + depth ≤ length f.old) }
    ensures { f.new ≡ store_pixel depth f.old at value }
{
    match depth {
        1 => u8::low(value).store(f, at),
        2 => u16::low(value).store(f, at),
        _ => value.store(f, at),
    }
}

// ---- the raster operation

// A raster code with a pattern value, made ready for any number of pixels. The four numbers are this crate's own affair: what the code
// gives at the pattern value, by the bits of destination and source.
#[derive(Clone, Copy)]
pub struct Operation {
    pub code: u32,
    pub pattern: u32,
    pub neither: u32,
    pub destination: u32,
    pub source: u32,
    pub both: u32,
    ghost neither_is: { neither ≡ by_pattern 32 code pattern 0 },
    ghost destination_is: { destination ≡ by_pattern 32 code pattern 1 },
    ghost source_is: { source ≡ by_pattern 32 code pattern 2 },
    ghost both_is: { both ≡ by_pattern 32 code pattern 3 },
}

// All ones or all zeros, as the lowest bit says.
fn spread(x: u32) -> u32
    ensures { result ≡ mask 32 (x % 2) }
{
    if x % 2 == 0 { 0 } else { u32::MAX }
}

// Bit by bit x where `by` has 0, y where it has 1.
fn choose(x: u32, y: u32, by: u32) -> u32
    ensures { result ≡ choice 32 x y by }
{
    x ^ (by & (x ^ y))
}

// What bits i and i + 4 of a code give at a pattern value.
fn by_pattern(code: u32, pattern: u32, i: u32) -> u32
    requires { i < 4 }
    ensures { result ≡ by_pattern 32 code pattern i }
{
    choose(spread(code >> i), spread(code >> (i + 4)), pattern)
}

// Makes a raster code ready for pixels of one pattern value.
pub fn prepare(code: u32, pattern: u32) -> Operation
    ensures code { result.code ≡ code }
    ensures pattern { result.pattern ≡ pattern }
{
    Operation {
        code,
        pattern,
        neither: by_pattern(code, pattern, 0),
        destination: by_pattern(code, pattern, 1),
        source: by_pattern(code, pattern, 2),
        both: by_pattern(code, pattern, 3),
    }
}

// The raster operation on a whole pixel; its low bytes are those of the operands' low bytes.
pub fn combine(op: Operation, source: u32, destination: u32) -> u32
    ensures { result ≡ raster 32 op.code op.pattern source destination }
{
    let low = choose(op.neither, op.destination, destination);
    let high = choose(op.source, op.both, destination);
    choose(low, high, source)
}

// Draws one pixel at a byte of frame memory, at any depth.
pub fn paint(f: &mut [u8], op: Operation, depth: usize, at: usize, source: u32)
    requires { (Depth depth) × (at + depth ≤ length f.old) }
    ensures { f.new ≡ store_pixel depth f.old at (raster (8 * depth) op.code op.pattern source (read_pixel depth f.old at)) }
{
    let value = combine(op, source, get(depth, f, at));
    put(depth, f, at, value);
}

// ---- blends

// What becomes of a pixel: its bits where `keep` has 1, xor `flip`.
#[derive(Clone, Copy)]
pub struct Blend<P> {
    pub flip: P,
    pub keep: P,
}

impl<P: Pixel> Blend<P> {
    // What a blend is to pixels of their own width: the bits above them are not stored.
    pub fn narrow(b: Blend<u32>) -> Blend<P>
        ensures { Narrow P.BYTES b.flip b.keep (P.number result.flip) (P.number result.keep) }
    {
        Blend {
            flip: P::low(b.flip),
            keep: P::low(b.keep),
        }
    }

    // Applies the blend to the pixel at a byte of frame memory.
    pub fn apply(self, f: &mut [u8], at: usize)
        requires { at + P.BYTES ≤ length f.old }
        ensures { f.new ≡ changed P.BYTES (blended (P.number self.flip) (P.number self.keep)) at f.old }
    {
        P::load(f, at).blend(self.flip, self.keep).store(f, at);
    }
}

// What a raster code makes of a pixel, for one pattern and one source value.
pub fn blend_of(code: u32, pattern: u32, source: u32) -> Blend<u32>
    ensures { (result.flip ≡ flip_of code pattern source) × (result.keep ≡ keep_of code pattern source) }
{
    let op = prepare(code, pattern);
    let flip = combine(op, source, 0);
    let set = combine(op, source, u32::MAX);
    Blend {
        flip,
        keep: flip ^ set,
    }
}

// The same, or, where nothing is to be written, the blend that keeps all.
pub fn blend_unless(nothing: bool, code: u32, pattern: u32, source: u32) -> Blend<u32>
    ensures { (result.flip ≡ flip_unless nothing code pattern source) × (result.keep ≡ keep_unless nothing code pattern source) }
{
    if nothing {
        Blend {
            flip: 0,
            keep: u32::MAX,
        }
    } else {
        blend_of(code, pattern, source)
    }
}

// Applies a blend to the pixel at a byte of frame memory, at any depth.
pub fn apply(f: &mut [u8], depth: usize, at: usize, b: Blend<u32>)
    requires { (Depth depth) × (at + depth ≤ length f.old) }
    ensures { f.new ≡ changed depth (blended b.flip b.keep) at f.old }
{
    let old = get(depth, f, at);
    put(depth, f, at, old.blend(b.flip, b.keep));
}

// What becomes of a pixel whose bit is set, and of one whose bit is clear.
#[derive(Clone, Copy)]
pub struct Inks<P> {
    pub set: Blend<P>,
    pub clear: Blend<P>,
}

impl<P: Pixel> Inks<P> {
    // What they are to pixels of their own width.
    pub fn narrow(inks: Inks<u32>) -> Inks<P>
        ensures set { Narrow P.BYTES inks.set.flip inks.set.keep (P.number result.set.flip) (P.number result.set.keep) }
        ensures clear { Narrow P.BYTES inks.clear.flip inks.clear.keep (P.number result.clear.flip) (P.number result.clear.keep) }
    {
        Inks {
            set: Blend::narrow(inks.set),
            clear: Blend::narrow(inks.clear),
        }
    }

    // The blend that the bit of pixel i says.
    pub fn choose(self, bits: u32, i: usize) -> Blend<P>
        ensures flip { P.number result.flip ≡ picked bits i (P.number self.set.flip) (P.number self.clear.flip) }
        ensures keep { P.number result.keep ≡ picked bits i (P.number self.set.keep) (P.number self.clear.keep) }
    {
        let by = 7 - i % 8;
        if (bits >> by) % 2 == 1 {
            self.set
        } else {
            self.clear
        }
    }
}

// Of two values the one for pixel i, by eight bits that come round: bit 7 is the first pixel's. The bits are no wider than two bytes, or
// the compiler makes wider lanes than the pixels need.
pub fn pick<P: Pixel>(bits: u16, i: usize, set: P, clear: P) -> P
    ensures { P.number result ≡ picked bits i (P.number set) (P.number clear) }
{
    let by = 7 - i % 8;
    if (bits >> by) % 2 == 1 { set } else { clear }
}

// ---- the mono pattern

// The bit of a pattern row and column.
pub fn pattern_bit(data0: u32, data1: u32, row: usize, column: usize) -> u32
    requires { (row < 8) × (column < 8) }
    ensures { result ≡ pattern_bit data0 data1 row column }
{
    let i = 8 * (row % 4) + (7 - column);
    if row < 4 {
        (data0 >> i) % 2
    } else {
        (data1 >> i) % 2
    }
}

// A pattern row or column, n steps from the first pixel's.
pub fn pattern_index(negative: bool, low: usize, n: usize) -> usize
    requires { (low < 8) × (n < 4294967296) }
    ensures { (result ≡ pattern_index negative low n) × (result < 8) }
{
    if negative {
        (low + 8 * n - n) % 8
    } else {
        (low + n) % 8
    }
}

// The word that has a pattern row.
fn pattern_word(data0: u32, data1: u32, row: usize) -> u32
    ensures { result ≡ (if row <? 4 then data0 else data1) }
{
    if 4 <= row { data1 } else { data0 }
}

// The eight bits of a pattern row from a column on and round, bit 7 first. What stands above them is of no account.
pub fn pattern_bits(data0: u32, data1: u32, row: usize, column: usize) -> u32
    requires { (row < 8) × (column < 8) }
    ensures { Turned data0 data1 row column result }
{
    let word = pattern_word(data0, data1, row);
    let byte = (word >> (8 * (row % 4))) % 256;
    (257 * byte) >> (8 - column)
}
