// Refusals 23 to 28 of what a command draws, on the registers as they would be after loading.
#![tactic(auto)]

ghost use Rattle.std.specs.Prelude.{◌≡◌, ◌&&◌};
ghost use Rattle.model.specs.BltPixel.{source_outside};
ghost use Rattle.model.specs.Judging.{row23, channel3_further, row24_channel3, source_bits, mono_back, row24_source, row24, row25, judge};
ghost use Rattle.model.specs.Choice.{◌=?◌};
ghost use Rattle.model.specs.Numbers.{number_of_check};
ghost use Rattle.model.specs.Registers.{pattern_inversion, source_mode};
ghost use Rattle.model.specs.Host.{straddles};
ghost use Rattle.laws.specs.Straddling.{straddling};
ghost use Rattle.model.specs.declared.Primitive.TheVariants.{Blt as BltPrimitive, Vector as VectorPrimitive};
ghost use Rattle.laws.specs.Ranges.{RangedSource};

use model::{
    BLT_MODE, CH3_MODE_STR, Primitive, RASTER_MODE, REGISTERS, Refusal, SRC_OFFSET, Source,
    WID_HEIGHT,
};

// ---- 23

// The colour format is refused, or alpha is enabled.
fn bad_format(registers: [u32; REGISTERS]) -> bool
    ensures { result ≡ row23 registers }
{
    let mode = registers[RASTER_MODE];
    fields::format(fields::bits(mode, 31, 28)).is_none() || fields::bits(mode, 23, 22) != 0b00
}

// ---- 24

// Pattern inversion.
fn inverts_pattern(registers: [u32; REGISTERS]) -> bool
    ensures { result ≡ pattern_inversion registers }
{
    fields::is_set(registers[RASTER_MODE], 12)
}

// Further mode bits of channel 3, but X and Y: rotation, the order of colours, preserving, prefetching, from the host.
fn has_further_bits(registers: [u32; REGISTERS]) -> bool
    ensures { result ≡ channel3_further registers }
{
    let mode = registers[CH3_MODE_STR];
    fields::is_set(mode, 23)
        || fields::is_set(mode, 22)
        || fields::is_set(mode, 20)
        || fields::is_set(mode, 19)
        || fields::is_set(mode, 18)
}

// Of a BLT's channel 3: enabled without pattern mode, steered to the source, in another format than RASTER_MODE's, or with further
// mode bits.
fn bad_channel3(registers: [u32; REGISTERS]) -> bool
    ensures { result ≡ row24_channel3 registers }
{
    let mode = registers[CH3_MODE_STR];
    fields::is_set(mode, 31)
        && (!fields::is_set(mode, 21)
            || fields::is_set(mode, 30)
            || fields::bits(mode, 27, 24) != fields::bits(registers[RASTER_MODE], 31, 28)
            || has_further_bits(registers))
}

// Source transparency or source inversion.
fn has_source_bits(registers: [u32; REGISTERS]) -> bool
    ensures { result ≡ source_bits registers }
{
    let mode = registers[RASTER_MODE];
    fields::is_set(mode, 11) || fields::is_set(mode, 13)
}

// A mono source in frame memory with X negative, or byte-packed with Y negative.
fn is_mono_back(registers: [u32; REGISTERS]) -> bool
    ensures { result ≡ mono_back registers }
{
    let blt = registers[BLT_MODE];
    fields::bits(blt, 1, 0) == 0b01
        && (blt::is_mono(registers) && fields::is_set(blt, 9)
            || fields::bits(blt, 7, 6) == 0b10 && fields::is_set(blt, 8))
}

// Source transparency or inversion of a colour source.
fn has_color_bits(registers: [u32; REGISTERS]) -> bool
    ensures { result ≡ (source_mode registers =? 0b00 && source_bits registers) }
{
    fields::bits(registers[BLT_MODE], 7, 6) == 0b00 && has_source_bits(registers)
}

// Of rows of so many pixels of so many bytes, from starting byte `first`: a pixel has bytes in two words.
fn is_straddling(depth: usize, first: usize, width: usize) -> bool
    ensures { result ≡ straddling depth first width }
{
    match depth {
        4 => first != 0,
        2 => first == 3 || first == 1 && 1 < width,
        _ => false,
    }
}

// Some pixel of a colour source from the host would straddle two words.
#[tactic(auto, using(laws::specs::Straddling::straddles_closed))]
fn is_torn(registers: [u32; REGISTERS]) -> bool
    ensures { result ≡ straddles registers }
{
    let size = registers[WID_HEIGHT];
    let width = fields::number(size, 27, 16);
    let height = fields::number(size, 11, 0);
    let depth = fields::depth_of(fields::bits(registers[RASTER_MODE], 31, 28));
    fields::bits(registers[BLT_MODE], 1, 0) == 0b10
        && !blt::is_mono(registers)
        && 0 < width * height
        && is_straddling(depth, fields::number(registers[SRC_OFFSET], 1, 0), width)
}

// Of a BLT's source: these, or a mono source that goes back.
fn bad_source(registers: [u32; REGISTERS]) -> bool
    ensures { result ≡ row24_source registers }
{
    is_mono_back(registers) || has_color_bits(registers) || is_torn(registers)
}

// Of a BLT: a source or pattern mode that is not carried, a bad source, a bad channel 3, or pattern inversion.
fn bad_blt_modes(registers: [u32; REGISTERS]) -> bool
    ensures { result ≡ row24 registers BltPrimitive }
{
    let blt = registers[BLT_MODE];
    fields::bits(blt, 7, 6) == 0b11
        || fields::bits(blt, 1, 0) == 0b11
        || fields::bits(registers[RASTER_MODE], 9, 8) == 0b11
        || bad_source(registers)
        || bad_channel3(registers)
        || inverts_pattern(registers)
}

// Of a vector: a pattern that is not solid, source transparency or inversion, channel 3, or pattern inversion.
fn bad_vector_modes(registers: [u32; REGISTERS]) -> bool
    ensures { result ≡ row24 registers VectorPrimitive }
{
    fields::bits(registers[RASTER_MODE], 9, 8) != 0b00
        || has_source_bits(registers)
        || fields::is_set(registers[CH3_MODE_STR], 31)
        || inverts_pattern(registers)
}

// ---- 25

// A BLT's width or height is 0.
fn no_area(registers: [u32; REGISTERS]) -> bool
    ensures { result ≡ row25 registers BltPrimitive }
{
    let size = registers[WID_HEIGHT];
    fields::bits(size, 27, 16) == 0 || fields::bits(size, 11, 0) == 0
}

// ---- 27 and 28

// Some byte of some source pixel, or of the bits of a mono source, lies outside.
fn source_outside(framelength: usize, source: Source) -> bool
    requires { RangedSource source }
    ensures { result ≡ source_outside framelength source }
{
    match source {
        Source::Unselected(_) => false,
        Source::Frame(r) => rectangle::extent(framelength, r).is_none(),
        Source::Bits(m) => rectangle::extent(framelength, m.bytes).is_none(),
    }
}

// ---- all of them

// The first of 23 to 28 that refuses a BLT.
#[tactic(auto, using(crate::specs::Extents::rectangle_extent_lem), unfolding(model::specs::Judging::judge, model::specs::Refusals::first))]
fn check_blt(registers: [u32; REGISTERS], framelength: usize) -> Result<(), Refusal>
    ensures { number_of_check result ≡ judge BltPrimitive registers framelength }
{
    if bad_format(registers) {
        Err(Refusal::BadFormat)
    } else if bad_blt_modes(registers) {
        Err(Refusal::BadModes)
    } else if no_area(registers) {
        Err(Refusal::NoPixels)
    } else if rectangle::extent(framelength, blt::destination_of(registers)).is_none() {
        Err(Refusal::DestinationOutside)
    } else if source_outside(framelength, blt::source_of(registers)) {
        Err(Refusal::SourceOutside)
    } else {
        Ok(())
    }
}

// The first of 23 to 27 that refuses a vector.
#[tactic(auto, unfolding(model::specs::Judging::judge, model::specs::Refusals::first, model::specs::VectorPixel::vector_of))]
fn check_vector(registers: [u32; REGISTERS], framelength: usize) -> Result<(), Refusal>
    ensures { number_of_check result ≡ judge VectorPrimitive registers framelength }
{
    let v = vector::vector_of(registers);
    if bad_format(registers) {
        Err(Refusal::BadFormat)
    } else if bad_vector_modes(registers) {
        Err(Refusal::BadModes)
    } else if v.length == 0 {
        Err(Refusal::NoPixels)
    } else if vector::bad_terms(v) {
        Err(Refusal::BadTerms)
    } else if vector::outside(framelength, v) {
        Err(Refusal::DestinationOutside)
    } else {
        Ok(())
    }
}

// The first of 23 to 28 that refuses what a command draws.
pub fn check(
    primitive: Primitive,
    registers: [u32; REGISTERS],
    framelength: usize,
) -> Result<(), Refusal>
    ensures { number_of_check result ≡ judge primitive registers framelength }
{
    match primitive {
        Primitive::Blt => check_blt(registers, framelength),
        Primitive::Vector => check_vector(registers, framelength),
    }
}
