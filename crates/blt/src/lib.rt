// A BLT: what its registers describe, and its pixels drawn row by row.
#![tactic(auto)]

ghost use Rattle.std.specs.Prelude.{◌≡◌, ◌+◌, ◌-◌, ◌≤◌, ◌<◌, length, ◌&&◌, Some, None, if◌then◌else◌};
ghost use Rattle.model.specs.Limits.{frame_most};
ghost use Rattle.model.specs.Bits.{field};
ghost use Rattle.model.specs.Choice.{◌=?◌};
ghost use Rattle.model.specs.Registers.{register_count, word, source_address, pattern_mode, channel3_enable, channel3_pattern_mode};
ghost use Rattle.model.specs.Rectangle.{pixels_of};
ghost use Rattle.model.specs.BltPixel.{rectangle_of, mono_mode, row_stride, bytes_of, mono_source_of, pattern_of, color_pattern_of, blt_of, draw_tiled, tile_from};
ghost use Rattle.model.specs.declared.Pattern.TheVariants.{Solid};
ghost use Rattle.model.specs.declared.Source.TheVariants.{Frame, Bits};
ghost use Rattle.laws.specs.Order.{in_order, blt_pixels};
ghost use Rattle.laws.specs.Ranges.{FitBlt};
ghost use Rattle.laws.specs.Rows.{Band};
ghost use Rattle.laws.specs.Plain.{sourceless, is_plain, plain_value, Plain};
ghost use Rattle.laws.specs.Moves.{is_full};
ghost use Rattle.laws.specs.Tiles.{tile_pixels};
ghost use Rattle.blt.specs.Origin.{pattern_at};

use bands::{AnyRows, BitRows, CombineRows, MonoRows, TileFillRows, TileRows};
use blocks::{BlendRows, CopyRows, FillRows};
use model::{
    Axis, BLT_MODE, Blt, CH3_MODE_STR, CH3_OFFSET, DST_OFFSET, MonoPattern, MonoSource,
    PAT_COLOR_0, PAT_COLOR_1, PAT_DATA_0, PAT_DATA_1, Pattern, RASTER_MODE, REGISTERS, Rectangle,
    SRC_COLOR_BG, SRC_COLOR_FG, SRC_OFFSET, STRIDE, Source, TABLE, WID_HEIGHT,
};
use tiles::Tile;

// ---- the registers

// Bits high:low of a register.
fn bits(registers: [u32; REGISTERS], r: usize, high: u32, low: u32) -> u32
    requires { (r < register_count) × (low ≤ high) × (high < 32) × (high < low + 31) }
    ensures { result ≡ field (word registers r) high low }
{
    fields::bits(registers[r], high, low)
}

// The same as a size or a position.
fn number(registers: [u32; REGISTERS], r: usize, high: u32, low: u32) -> usize
    requires { (r < register_count) × (low ≤ high) × (high < 32) × (high < low + 31) }
    ensures { result ≡ field (word registers r) high low }
{
    fields::number(registers[r], high, low)
}

// The rectangle of the BLT's size and directions with this offset and stride.
#[tactic(auto, unfolding(model::specs::BltPixel::rectangle_of))]
fn rectangle_of(registers: [u32; REGISTERS], offset: usize, stride: usize) -> Rectangle
    ensures { result ≡ rectangle_of registers offset stride }
{
    let depth = fields::depth_of(bits(registers, RASTER_MODE, 31, 28));
    Rectangle {
        offset,
        depth,
        columns: Axis {
            count: number(registers, WID_HEIGHT, 27, 16),
            step: depth,
            negative: fields::is_set(registers[BLT_MODE], 9),
        },
        rows: Axis {
            count: number(registers, WID_HEIGHT, 11, 0),
            step: stride,
            negative: fields::is_set(registers[BLT_MODE], 8),
        },
    }
}

// Whether the source mode is mono.
pub fn is_mono(registers: [u32; REGISTERS]) -> bool
    ensures { result ≡ mono_mode registers }
{
    matches!(bits(registers, BLT_MODE, 7, 6), 0b01 | 0b10)
}

// The bytes from one row of a mono source's bits to the next.
fn row_stride(registers: [u32; REGISTERS]) -> usize
    ensures { result ≡ row_stride registers }
{
    if bits(registers, BLT_MODE, 7, 6) == 0b10 {
        let skip = number(registers, SRC_OFFSET, 28, 26);
        let width = number(registers, WID_HEIGHT, 27, 16);
        (skip + width + 7) / 8
    } else {
        number(registers, STRIDE, 31, 16)
    }
}

// The bytes that hold a mono source's bits, from the source's address on.
#[tactic(auto, unfolding(model::specs::BltPixel::bytes_of))]
fn bytes_of(registers: [u32; REGISTERS], offset: usize) -> Rectangle
    requires { offset ≡ source_address registers }
    ensures { result ≡ bytes_of registers }
{
    let last = number(registers, WID_HEIGHT, 27, 16).saturating_sub(1);
    Rectangle {
        offset,
        depth: 1,
        columns: Axis {
            count: (number(registers, SRC_OFFSET, 28, 26) + last) / 8 + 1,
            step: 1,
            negative: false,
        },
        rows: Axis {
            count: number(registers, WID_HEIGHT, 11, 0),
            step: row_stride(registers),
            negative: fields::is_set(registers[BLT_MODE], 8),
        },
    }
}

// The mono source at the source's address. Found once for both modes, the address leaves `source_of` small enough to be inlined.
#[tactic(auto, unfolding(model::specs::BltPixel::mono_source_of))]
fn mono_source_at(registers: [u32; REGISTERS], offset: usize) -> MonoSource
    requires { offset ≡ source_address registers }
    ensures { result ≡ mono_source_of registers }
{
    MonoSource {
        bytes: bytes_of(registers, offset),
        skip: number(registers, SRC_OFFSET, 28, 26),
        foreground: registers[SRC_COLOR_FG],
        background: registers[SRC_COLOR_BG],
        inversion: fields::is_set(registers[RASTER_MODE], 13),
        transparent: fields::is_set(registers[RASTER_MODE], 11),
    }
}

// The mono source.
pub fn mono_source_of(registers: [u32; REGISTERS]) -> MonoSource
    ensures { result ≡ mono_source_of registers }
{
    mono_source_at(registers, fields::source_address(registers))
}

// Where the pixels are drawn.
#[tactic(auto, unfolding(model::specs::BltPixel::blt_of))]
pub fn destination_of(registers: [u32; REGISTERS]) -> Rectangle
    ensures { result ≡ (blt_of registers).destination }
{
    rectangle_of(
        registers,
        fields::destination_address(registers),
        number(registers, STRIDE, 15, 0),
    )
}

// Where the source values come from.
#[tactic(auto, unfolding(model::specs::BltPixel::source_of, model::specs::BltPixel::blt_of))]
pub fn source_of(registers: [u32; REGISTERS]) -> Source
    ensures { result ≡ (blt_of registers).source }
{
    if bits(registers, BLT_MODE, 1, 0) != 0b01 {
        return Source::Unselected(registers[SRC_COLOR_FG]);
    }
    let offset = fields::source_address(registers);
    if is_mono(registers) {
        Source::Bits(mono_source_at(registers, offset))
    } else {
        let stride = number(registers, STRIDE, 31, 16);
        Source::Frame(rectangle_of(registers, offset, stride))
    }
}

// Where the pattern values come from.
#[tactic(auto, unfolding(model::specs::BltPixel::pattern_of))]
fn pattern_of(registers: [u32; REGISTERS]) -> Pattern
    ensures { result ≡ pattern_of registers }
{
    if bits(registers, RASTER_MODE, 9, 8) == 0b01 {
        Pattern::Mono(MonoPattern {
            data0: registers[PAT_DATA_0],
            data1: registers[PAT_DATA_1],
            row: number(registers, DST_OFFSET, 31, 29),
            column: number(registers, DST_OFFSET, 28, 26),
            color0: registers[PAT_COLOR_0],
            color1: registers[PAT_COLOR_1],
            transparent: fields::is_set(registers[RASTER_MODE], 10),
        })
    } else {
        Pattern::Solid(registers[PAT_COLOR_0])
    }
}

// Whether channel 3 gives the pattern.
pub fn is_channel3(registers: [u32; REGISTERS]) -> bool
    ensures { result ≡ (channel3_enable registers && channel3_pattern_mode registers) }
{
    let mode = registers[CH3_MODE_STR];
    fields::is_set(mode, 31) && fields::is_set(mode, 21)
}

// Whether RASTER_MODE selects the colour pattern.
pub fn is_tiled(registers: [u32; REGISTERS]) -> bool
    ensures { result ≡ pattern_mode registers =? 0b10 }
{
    bits(registers, RASTER_MODE, 9, 8) == 0b10
}

// The offset register whose low bits say where in the tile the first pixel lies, if the BLT has a colour pattern.
#[tactic(auto, unfolding(model::specs::BltPixel::color_pattern_of))]
pub fn tile_origin(registers: [u32; REGISTERS]) -> Option<u32>
    ensures { color_pattern_of registers ≡ pattern_at result }
{
    if is_channel3(registers) {
        Some(registers[CH3_OFFSET])
    } else if is_tiled(registers) {
        Some(registers[DST_OFFSET])
    } else {
        None
    }
}

// The BLT that the registers describe. Inlined, it is made in place.
#[tactic(auto, unfolding(model::specs::BltPixel::blt_of))]
#[inline(always)]
pub fn blt_of(registers: [u32; REGISTERS]) -> Blt
    ensures { result ≡ blt_of registers }
{
    Blt {
        destination: destination_of(registers),
        source: source_of(registers),
        pattern: pattern_of(registers),
        code: bits(registers, RASTER_MODE, 7, 0),
    }
}

// ---- pixels

// Whether a raster operation gives the same whatever the source.
fn is_sourceless(code: u32) -> bool
    ensures { result ≡ sourceless code }
{
    matches!(code, 0x5A | 0xF0)
}

// The value that serves as the source of every pixel, if one does.
fn plain_value(code: u32, s: Source) -> Option<u32>
    ensures { result ≡ (if is_plain code s then Some (plain_value s) else None) }
{
    match s {
        Source::Unselected(value) => Some(value),
        Source::Frame(_) => is_sourceless(code).then_some(0),
        Source::Bits(m) => (is_sourceless(code) && !m.transparent).then_some(0),
    }
}

// Whether a pattern gives every pixel a value.
pub fn is_full(p: Pattern) -> bool
    ensures { result ≡ is_full p }
{
    match p {
        Pattern::Solid(_) => true,
        Pattern::Mono(m) => !m.transparent,
    }
}

// Draws n pixels with a solid pattern for which one value serves as the source.
#[tactic(auto, using(blocks::specs::Plains::serves_fill), unfolding(model::specs::BltPixel::draw_blt))]
fn draw_solid(f: &mut [u8], b: Blt, color: u32, value: u32, k: usize, n: usize)
    requires band { Band (length f.old) b k n }
    requires solid { b.pattern ≡ Solid color }
    requires plain { Plain b.code b.source value }
    ensures { f.new ≡ blt_pixels b k n f.old }
{
    if b.code == 0xF0 {
        bands::paint(f, &FillRows { blt: b, color }, k, n);
    } else {
        bands::paint(
            f,
            &BlendRows {
                blt: b,
                color,
                value,
            },
            k,
            n,
        );
    }
}

// Draws n pixels for which one value serves as the source.
#[tactic(auto, unfolding(model::specs::BltPixel::draw_blt))]
fn draw_plain(f: &mut [u8], b: Blt, value: u32, k: usize, n: usize)
    requires band { Band (length f.old) b k n }
    requires plain { Plain b.code b.source value }
    ensures { f.new ≡ blt_pixels b k n f.old }
{
    match b.pattern {
        Pattern::Solid(color) => draw_solid(f, b, color, value, k, n),
        Pattern::Mono(pattern) => bands::paint(
            f,
            &MonoRows {
                blt: b,
                pattern,
                value,
            },
            k,
            n,
        ),
    }
}

// Draws n pixels that read their source in frame memory: a copy, or another combination.
#[tactic(auto, unfolding(model::specs::BltPixel::draw_blt))]
fn draw_frame(f: &mut [u8], b: Blt, source: Rectangle, k: usize, n: usize)
    requires band { Band (length f.old) b k n }
    requires framed { b.source ≡ Frame source }
    ensures { f.new ≡ blt_pixels b k n f.old }
{
    if b.code == 0xCC && is_full(b.pattern) {
        bands::paint(f, &CopyRows { blt: b, source }, k, n);
    } else {
        match b.pattern {
            Pattern::Solid(color) => {
                bands::paint(
                    f,
                    &CombineRows {
                        blt: b,
                        color,
                        source,
                    },
                    k,
                    n,
                )
            }
            Pattern::Mono(_) => bands::paint(f, &AnyRows { blt: b }, k, n),
        }
    }
}

// Draws n pixels that read their bits.
#[tactic(auto, unfolding(model::specs::BltPixel::draw_blt))]
fn draw_bits(f: &mut [u8], b: Blt, source: MonoSource, k: usize, n: usize)
    requires band { Band (length f.old) b k n }
    requires bits { b.source ≡ Bits source }
    ensures { f.new ≡ blt_pixels b k n f.old }
{
    match b.pattern {
        Pattern::Solid(color) => bands::paint(
            f,
            &BitRows {
                blt: b,
                color,
                source,
            },
            k,
            n,
        ),
        Pattern::Mono(_) => bands::paint(f, &AnyRows { blt: b }, k, n),
    }
}

// Draws n pixels of a BLT, from pixel k, by the rows of its kind.
pub fn draw(f: &mut [u8], b: Blt, k: usize, n: usize)
    requires { (FitBlt (length f.old) b) × (k + n ≤ pixels_of b.destination) × (length f.old ≤ frame_most) }
    ensures { f.new ≡ blt_pixels b k n f.old }
{
    if let Some(value) = plain_value(b.code, b.source) {
        draw_plain(f, b, value, k, n);
    } else {
        match b.source {
            // one value would serve
            Source::Unselected(_) => {}
            Source::Frame(r) => draw_frame(f, b, r, k, n),
            Source::Bits(m) => draw_bits(f, b, m, k, n),
        }
    }
}

// Draws n pixels with a colour pattern, from pixel k.
fn draw_tile(f: &mut [u8], b: Blt, tile: &Tile, k: usize, n: usize)
    requires { Band (length f.old) b k n }
    ensures { f.new ≡ tile_pixels tile.now.colors tile.now.row tile.now.column b k n f.old }
{
    if b.code == 0xF0 && plain_value(b.code, b.source).is_some() {
        bands::paint(f, &TileFillRows { blt: b, tile }, k, n);
    } else {
        bands::paint(f, &TileRows { blt: b, tile }, k, n);
    }
}

// Draws n pixels with the tile that stands in the lookup table; `origin` is the offset register whose low bits say where in the tile
// the first pixel lies. The compiler keeps it out of the way of other BLTs.
#[inline(never)]
pub fn draw_colors(
    f: &mut [u8],
    registers: [u32; REGISTERS],
    table: &[u32; TABLE],
    origin: u32,
    k: usize,
    n: usize,
)
    requires { Band (length f.old) (blt_of registers) k n }
    ensures { f.new ≡ in_order (draw_tiled (tile_from (field origin 31 29) (field origin 28 26)) table.now (blt_of registers)) k n f.old }
{
    let b = blt_of(registers);
    let tile = Tile {
        colors: tiles::tile_of(table, b.destination.depth),
        row: fields::number(origin, 31, 29),
        column: fields::number(origin, 28, 26),
    };
    draw_tile(f, b, &tile, k, n);
}
