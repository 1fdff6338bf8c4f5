// What a command in progress draws: how many pixels it has, and its pixels.
#![tactic(auto)]

ghost use Rattle.std.specs.Prelude.{◌≡◌, ◌+◌, ◌*◌, ◌≤◌, length};
ghost use Rattle.model.specs.Limits.{frame_most, side_most};
ghost use Rattle.model.specs.Judging.{judge};
ghost use Rattle.model.specs.Host.{takes_data};
ghost use Rattle.model.specs.Unit.{pixel_count};
ghost use Rattle.model.specs.declared.Primitive.TheVariants.{Blt as BltPrimitive};
ghost use Rattle.laws.specs.Order.{pixels};

use model::{BLT_MODE, Primitive, REGISTERS, TABLE, WID_HEIGHT};

// How many pixels it has.
pub fn pixel_count(primitive: Primitive, registers: [u32; REGISTERS]) -> usize
    ensures { (result ≡ pixel_count primitive registers) × (result ≤ side_most * side_most) }
{
    let size = registers[WID_HEIGHT];
    let width = fields::number(size, 27, 16);
    match primitive {
        Primitive::Blt => width * fields::number(size, 11, 0),
        Primitive::Vector => width,
    }
}

// Whether it takes its pixels from data commands.
pub fn takes_data(primitive: Primitive, registers: [u32; REGISTERS]) -> bool
    ensures { result ≡ takes_data primitive registers }
{
    match primitive {
        Primitive::Blt => fields::bits(registers[BLT_MODE], 1, 0) == 0b10,
        Primitive::Vector => false,
    }
}

// Draws n pixels of a BLT, from pixel k: with a colour pattern by channel 3 or by RASTER_MODE, or without one.
fn draw_blt(frame: &mut [u8], registers: [u32; REGISTERS], table: &[u32; TABLE], k: usize, n: usize)
    requires { (judge BltPrimitive registers (length frame.old) ≡ 0) × (k + n ≤ pixel_count BltPrimitive registers) × (length frame.old ≤ frame_most) }
    ensures { frame.new ≡ pixels BltPrimitive registers table.now k n frame.old }
{
    match blt::tile_origin(registers) {
        Some(origin) => blt::draw_colors(frame, registers, table, origin, k, n),
        None => blt::draw(frame, blt::blt_of(registers), k, n),
    }
}

// Draws n pixels of what judging accepts, from pixel k.
pub fn draw(
    frame: &mut [u8],
    primitive: Primitive,
    registers: [u32; REGISTERS],
    table: &[u32; TABLE],
    k: usize,
    n: usize,
)
    requires { (judge primitive registers (length frame.old) ≡ 0) × (k + n ≤ pixel_count primitive registers) × (length frame.old ≤ frame_most) }
    ensures { frame.new ≡ pixels primitive registers table.now k n frame.old }
{
    match primitive {
        Primitive::Blt => draw_blt(frame, registers, table, k, n),
        Primitive::Vector => vector::draw(frame, vector::vector_of(registers), k, n),
    }
}
