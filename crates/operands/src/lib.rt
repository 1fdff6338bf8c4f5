// What a pixel of a BLT gets beside what stands there, and the drawing of it. A new source or pattern is an arm here.
#![tactic(auto)]

ghost use Rattle.std.specs.Prelude.{◌≡◌, ◌+◌, ◌^◌, ◌≤◌, ◌<◌, length, if◌then◌else◌};
ghost use Rattle.model.specs.Formats.{Depth};
ghost use Rattle.model.specs.Operands.{draw_operands};
ghost use Rattle.model.specs.Expansion.{byte_column, expand as expandBit};
ghost use Rattle.model.specs.BltPixel.{source_value, mono_bit, with_pattern, with_source, operands_at};
ghost use Rattle.model.specs.declared.Pattern.TheVariants.{Mono};
ghost use Rattle.laws.specs.Ranges.{FitPattern};
ghost use Rattle.laws.specs.Rows.{bit_at, SourceWithin, PixelOf};

use model::{Blt, MonoPattern, MonoSource, Operands, Pattern, Rectangle, Source};
use pixel::Pixel;

// ---- sources

// The bit that is set after inversion.
fn set_bit(inversion: bool) -> u32
    ensures { result ≡ (if inversion then 0 else 1) }
{
    if inversion { 0 } else { 1 }
}

// What a mono source makes of a bit: none where a clear bit writes nothing.
#[tactic(auto, unfolding(model::specs::Expansion::expand, model::specs::Expansion::inverted))]
pub fn expand(m: MonoSource, bit: u32) -> Option<u32>
    ensures { result ≡ expandBit m bit }
{
    if bit == set_bit(m.inversion) {
        Some(m.foreground)
    } else if m.transparent {
        None
    } else {
        Some(m.background)
    }
}

// What it gives column i of a row whose bytes begin at `from`.
fn expanded(f: &[u8], m: MonoSource, from: usize, i: usize) -> Option<u32>
    requires { (m.skip + i < 2 ^ 32) × (from + byte_column m.skip i < length f.now) }
    ensures { result ≡ expandBit m (bit_at m.skip from i f.now) }
{
    let x = m.skip + i;
    let byte = u8::load(f, from + x / 8).wide();
    expand(m, (byte >> (7 - x % 8)) % 2)
}

// What a source gives the pixel at column i of row j.
#[tactic(auto, unfolding(model::specs::BltPixel::source_value))]
fn source_value(f: &[u8], s: Source, i: usize, j: usize) -> Option<u32>
    requires { SourceWithin (length f.now) s i j }
    ensures { result ≡ source_value s i j f.now }
{
    match s {
        Source::Unselected(color) => Some(color),
        Source::Frame(r) => {
            let at = rectangle::pixel_byte(r, i, j);
            Some(pixel::get(r.depth, f, at))
        }
        Source::Bits(m) => {
            let from = rectangle::pixel_byte(m.bytes, 0, j);
            expanded(f, m, from, i)
        }
    }
}

// ---- patterns

// The mono pattern's bit there: one, where `rows::mono_bits` has eight. (`FitPattern` stands in the contracts: registers that judging
// refuses give patterns without it.)
#[tactic(auto, unfolding(model::specs::BltPixel::mono_bit))]
fn mono_bit(p: MonoPattern, d: Rectangle, i: usize, j: usize) -> u32
    requires { (FitPattern (Mono p)) × (i < 2 ^ 32) × (j < 2 ^ 32) }
    ensures { result ≡ mono_bit p d i j }
{
    let row = pixel::pattern_index(d.rows.negative, p.row, j);
    let column = pixel::pattern_index(d.columns.negative, p.column, i);
    pixel::pattern_bit(p.data0, p.data1, row, column)
}

// What a mono pattern makes of a source value: a clear bit writes nothing with transparency.
#[tactic(auto, unfolding(model::specs::BltPixel::with_pattern))]
fn with_mono(p: MonoPattern, d: Rectangle, i: usize, j: usize, source: u32) -> Option<Operands>
    requires { (FitPattern (Mono p)) × (i < 2 ^ 32) × (j < 2 ^ 32) }
    ensures { result ≡ with_pattern (Mono p) d i j source }
{
    if mono_bit(p, d, i, j) == 1 {
        Some(Operands {
            pattern: p.color1,
            source,
        })
    } else if p.transparent {
        None
    } else {
        Some(Operands {
            pattern: p.color0,
            source,
        })
    }
}

// What any pattern makes of it.
#[tactic(auto, unfolding(model::specs::BltPixel::with_pattern))]
fn with_pattern(p: Pattern, d: Rectangle, i: usize, j: usize, source: u32) -> Option<Operands>
    requires { (FitPattern p) × (i < 2 ^ 32) × (j < 2 ^ 32) }
    ensures { result ≡ with_pattern p d i j source }
{
    match p {
        Pattern::Solid(color) => Some(Operands {
            pattern: color,
            source,
        }),
        Pattern::Mono(mono) => with_mono(mono, d, i, j, source),
    }
}

// ---- pixels

// What the pixel at column i of row j gets, given what its source gives. Nothing is written where either gives none.
#[tactic(auto, unfolding(model::specs::BltPixel::with_source))]
pub fn with_source(
    p: Pattern,
    d: Rectangle,
    i: usize,
    j: usize,
    value: Option<u32>,
) -> Option<Operands>
    requires { (FitPattern p) × (i < 2 ^ 32) × (j < 2 ^ 32) }
    ensures { result ≡ with_source p d i j value }
{
    with_pattern(p, d, i, j, value?)
}

// The same with a source in frame memory, or none.
#[tactic(auto, using(laws::specs::Rows::source_within), unfolding(model::specs::BltPixel::operands_at))]
pub fn at(f: &[u8], b: Blt, i: usize, j: usize) -> Option<Operands>
    requires { PixelOf (length f.now) b i j }
    ensures { result ≡ operands_at b i j f.now }
{
    let value = source_value(f, b.source, i, j);
    with_source(b.pattern, b.destination, i, j, value)
}

// Draws what a pixel gets, at its first byte.
#[tactic(auto, unfolding(model::specs::Operands::draw_operands))]
pub fn draw(f: &mut [u8], depth: usize, code: u32, at: usize, o: Option<Operands>)
    requires { (Depth depth) × (at + depth ≤ length f.old) }
    ensures { f.new ≡ draw_operands depth code at o f.old }
{
    if let Some(Operands { pattern, source }) = o {
        pixel::paint(f, pixel::prepare(code, pattern), depth, at, source);
    }
}
