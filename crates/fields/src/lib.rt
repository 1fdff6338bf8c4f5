// Fields of a word, the colour format's decision, and where a channel begins in frame memory.
#![tactic(auto)]

ghost use Rattle.std.specs.Prelude.{◌≡◌, ◌+◌, ◌-◌, ◌*◌, ◌^◌, ◌<◌, ◌≤◌};
ghost use Rattle.model.specs.Bits.{field, set?};
ghost use Rattle.model.specs.Formats.{format_of, depth_of};
ghost use Rattle.model.specs.Registers.{granule, destination_address, source_address};

use model::{BASE_OFFSET, DST_OFFSET, GRANULE, REGISTERS, SRC_OFFSET};

// Bits high:low of a word; the field is narrower than the word.
pub fn bits(word: u32, high: u32, low: u32) -> u32
    requires { (low ≤ high) × (high < 32) × (high < low + 31) }
    ensures { (result ≡ field word high low) × (result < 2 ^ (high + 1 - low)) }
{
    let width = high + 1 - low;
    (word >> low) % (1 << width)
}

// The same as a size or a place, which are `usize` everywhere above.
pub fn number(word: u32, high: u32, low: u32) -> usize
    requires { (low ≤ high) × (high < 32) × (high < low + 31) }
    ensures { (result ≡ field word high low) × (result < 2 ^ (high + 1 - low)) }
{
    bits(word, high, low) as usize
}

// Whether bit i of a word is set.
pub fn is_set(word: u32, i: u32) -> bool
    requires { i < 32 }
    ensures { result ≡ set? word i }
{
    (word >> i) % 2 == 1
}

// The bytes a pixel of a colour format's code, for every code; none where it is refused.
pub fn format(code: u32) -> Option<usize>
    ensures { result ≡ format_of code }
{
    match code {
        0b0000 => Some(1),
        0b0100 => Some(2),
        0b0101 => Some(2),
        0b0110 => Some(2),
        0b1000 => Some(4),
        _ => None,
    }
}

// The bytes a pixel of a colour format's code; 0 where the code is refused.
pub fn depth_of(code: u32) -> usize
    ensures { result ≡ depth_of (format_of code) }
{
    format(code).unwrap_or(0)
}

// The byte that a base, counted in granules, and the offset of an offset register name together. No sum wraps: it can be more than 32
// bits hold.
fn address(base: usize, register: u32) -> usize
    requires { base < 1024 }
    ensures { result ≡ base * granule + field register 23 0 }
{
    base * GRANULE + number(register, 23, 0)
}

// The byte that the destination's base and offset name.
pub fn destination_address(registers: [u32; REGISTERS]) -> usize
    ensures { result ≡ destination_address registers }
{
    address(
        number(registers[BASE_OFFSET], 31, 22),
        registers[DST_OFFSET],
    )
}

// The byte that the source's base and offset name.
pub fn source_address(registers: [u32; REGISTERS]) -> usize
    ensures { result ≡ source_address registers }
{
    address(
        number(registers[BASE_OFFSET], 21, 12),
        registers[SRC_OFFSET],
    )
}
