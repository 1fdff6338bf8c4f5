// The types that every crate shares. What they mean is in specs/, a file for each part of the rules.
#![tactic(auto)]

ghost use Rattle.std.specs.Prelude.{◌≡◌};
ghost use Rattle.model.specs.Numbers.{number};

// ---- limits, and the registers by their numbers (specs/Limits and specs/Registers have the same)

pub const RING_LEAST: usize = 1024;

pub const RING_MOST: usize = 262144;

pub const FRAME_MOST: usize = 67108864;

pub const GRANULE: usize = 4194304;

pub const COUNT_MOST: usize = 65535;

pub const STOP_LEAST: u32 = 21;

pub const STOP_MOST: u32 = 32;

pub const TABLE: usize = 512;

pub const TILE: usize = 256;

pub const REGISTERS: usize = 18;

pub const RASTER_MODE: usize = 0;

pub const DST_OFFSET: usize = 1;

pub const SRC_OFFSET: usize = 2;

pub const STRIDE: usize = 3;

pub const WID_HEIGHT: usize = 4;

pub const SRC_COLOR_FG: usize = 5;

pub const SRC_COLOR_BG: usize = 6;

pub const PAT_COLOR_0: usize = 7;

pub const PAT_COLOR_1: usize = 8;

pub const PAT_DATA_0: usize = 9;

pub const PAT_DATA_1: usize = 10;

pub const CH3_OFFSET: usize = 11;

pub const CH3_MODE_STR: usize = 12;

pub const BASE_OFFSET: usize = 14;

pub const BLT_MODE: usize = 15;

pub const VECTOR_MODE: usize = 16;

pub const LUT_INDEX: usize = 17;

// Two names of one register each.
pub const VEC_ERR: usize = SRC_OFFSET;

pub const VEC_LEN: usize = WID_HEIGHT;

// ---- refusals

// Why a call or a command is refused: the rows of the refusal table, in the order of their numbers.
#[derive(Clone, Copy, Debug, PartialEq, Eq)]
pub enum Refusal {
    // of a call
    RingLength,
    FrameLength,
    UnfitState,
    LentLength,
    NoPosition,
    NoRoom,
    NotStopped,
    // of a command
    BadHeader,
    BadReturn,
    BadFormat,
    BadModes,
    NoPixels,
    BadTerms,
    DestinationOutside,
    SourceOutside,
    BadTableCount,
    DataWanted,
    DataUnwanted,
    BadDataCount,
}

impl From<Refusal> for u32 {
    ghost from_gives = { λ refusal r. r ≡ number refusal };

    // Its number.
    fn from(refusal: Refusal) -> u32 {
        match refusal {
            Refusal::RingLength => 1,
            Refusal::FrameLength => 2,
            Refusal::UnfitState => 3,
            Refusal::LentLength => 4,
            Refusal::NoPosition => 5,
            Refusal::NoRoom => 6,
            Refusal::NotStopped => 7,
            Refusal::BadHeader => 21,
            Refusal::BadReturn => 22,
            Refusal::BadFormat => 23,
            Refusal::BadModes => 24,
            Refusal::NoPixels => 25,
            Refusal::BadTerms => 26,
            Refusal::DestinationOutside => 27,
            Refusal::SourceOutside => 28,
            Refusal::BadTableCount => 29,
            Refusal::DataWanted => 30,
            Refusal::DataUnwanted => 31,
            Refusal::BadDataCount => 32,
        }
    }
}

// ---- what the registers and headers say

// The kind of a command, as its header gives it.
#[derive(Clone, Copy, Debug, PartialEq, Eq)]
pub enum Kind {
    Blt,
    Vector,
    Table,
    Data,
}

// What can be drawn.
#[derive(Clone, Copy, Debug, PartialEq, Eq)]
pub enum Primitive {
    Blt,
    Vector,
}

// ---- the engine state

// A data command that is accepted and not passed yet: how many of the BLT's data words came before it, its count and its W.
#[derive(Clone, Copy)]
pub struct Feed {
    pub before: u32,
    pub count: u32,
    pub returns: bool,
}

// The place in a command in progress: none, or what is drawn and how many of its pixels are drawn already; of a BLT with host
// source, that it wants a data command, or the one that feeds it. Everything else of the place follows from the registers.
#[derive(Clone, Copy)]
pub enum Place {
    Idle,
    Drawing(Primitive, usize),
    Wanting(usize),
    Fed(usize, Feed),
}

// The engine state without the write pointer. One unit of work looks at this, and never at the write pointer.
#[derive(Clone, Copy)]
pub struct Core {
    // in the order of specs/Registers
    pub registers: [u32; REGISTERS],
    pub read: usize,
    // the ring's length in words, frame memory's in bytes
    pub ringlength: usize,
    pub framelength: usize,
    pub completion: u32,
    // 0, or the number of the refusal that stopped the engine. (A number: a state that comes in may hold any, and row 3 refuses a bad
    // one, `Calls.bad_stop`.)
    pub stop: u32,
    pub place: Place,
}

// The engine state. The lookup table stands beside the core, so that no unit copies it.
#[derive(Clone, Copy)]
pub struct State {
    pub core: Core,
    pub table: [u32; TABLE],
    pub write: usize,
}

// ---- answers

// Where pixels lie that lie in frame memory: their lowest and their highest byte.
#[derive(Clone, Copy)]
pub struct Extent {
    pub low: usize,
    pub high: usize,
}

// The word that a run reports.
#[derive(Clone, Copy, Debug, PartialEq, Eq)]
pub enum RunWord {
    Stopped,
    Waiting,
    Spent,
}

// What a call answers: its refusal's number; or, accepted, the room after it; or, from a run, also its word and its units. (No
// Result, since there are three answers; and the number, since the rules that `Calls.answered` and the refusal table speak of are
// numbers, to be read beside the paper's own.)
#[derive(Clone, Copy)]
pub enum Reply {
    Refused(u32),
    Accepted {
        room: usize,
    },
    Ran {
        word: RunWord,
        units: u32,
        room: usize,
    },
}

// A call's answer with the state that it hands back.
#[derive(Clone, Copy)]
pub struct Answer {
    pub state: State,
    pub reply: Reply,
}

// ---- what is drawn

// One axis of a rectangle of pixels: how many there are along it, the bytes of a step, and whether it goes back.
#[derive(Clone, Copy)]
pub struct Axis {
    pub count: usize,
    pub step: usize,
    pub negative: bool,
}

// Pixels in frame memory: the first byte of the first one drawn, or with X negative its last, counted from byte 0 of frame memory;
// bytes a pixel; and the two axes.
#[derive(Clone, Copy)]
pub struct Rectangle {
    pub offset: usize,
    pub depth: usize,
    pub columns: Axis,
    pub rows: Axis,
}

// A mono source: the bytes of frame memory that hold its rows of bits, how many bits of a row's first byte are skipped, the
// colours of a set and a clear bit, whether the bits are inverted before, and whether a clear bit writes nothing.
#[derive(Clone, Copy)]
pub struct MonoSource {
    pub bytes: Rectangle,
    pub skip: usize,
    pub foreground: u32,
    pub background: u32,
    pub inversion: bool,
    pub transparent: bool,
}

// Where a BLT's source values come from: none is selected and all are one colour; a rectangle of frame memory; bits there. A
// host source stands for none here: its values stand in the ring, and each is handed to its pixel.
#[derive(Clone, Copy)]
pub enum Source {
    Unselected(u32),
    Frame(Rectangle),
    Bits(MonoSource),
}

// How the pixels of a host source lie in the bytes of the BLT's data words: the first byte of the first row, the bytes from one
// row to the next, how many bits of a row's first byte are skipped, and bits a pixel.
#[derive(Clone, Copy)]
pub struct Host {
    pub first: usize,
    pub stride: usize,
    pub skip: usize,
    pub bits: usize,
}

// A mono pattern: its eight rows, the row and column of the first pixel, the colours of a clear and a set bit, and whether a
// clear bit writes nothing.
#[derive(Clone, Copy)]
pub struct MonoPattern {
    pub data0: u32,
    pub data1: u32,
    pub row: usize,
    pub column: usize,
    pub color0: u32,
    pub color1: u32,
    pub transparent: bool,
}

// Where a BLT's pattern values come from: one colour, or a mono pattern.
#[derive(Clone, Copy)]
pub enum Pattern {
    Solid(u32),
    Mono(MonoPattern),
}

// A BLT's colour pattern, which stands in place of its other pattern: its tile lies in the lookup table, and the first pixel has this
// row and column of it.
#[derive(Clone, Copy)]
pub struct TileOrigin {
    pub row: usize,
    pub column: usize,
}

// The values that are combined with what stands at a pixel.
#[derive(Clone, Copy)]
pub struct Operands {
    pub pattern: u32,
    pub source: u32,
}

// A BLT as its registers describe it, with its raster operation.
#[derive(Clone, Copy)]
pub struct Blt {
    pub destination: Rectangle,
    pub source: Source,
    pub pattern: Pattern,
    pub code: u32,
}

// A vector as its registers describe it.
#[derive(Clone, Copy)]
pub struct Vector {
    // bytes a pixel; length in pixels
    pub depth: usize,
    pub length: usize,
    // destination: the first byte of the first pixel, counted from byte 0 of frame memory
    pub offset: usize,
    pub stride: usize,
    // error terms
    pub axial: i16,
    pub diagonal: i16,
    pub initial: i16,
    // whether Y is the major axis, and whether the major and the minor direction are positive
    pub ymajor: bool,
    pub majorpositive: bool,
    pub minorpositive: bool,
    // raster operation, and the values of source and pattern
    pub code: u32,
    pub foreground: u32,
    pub color: u32,
}

// Where a pixel of a vector lies: what is added to the destination offset and what is taken away, and the error there.
#[derive(Clone, Copy)]
pub struct Position {
    pub plus: usize,
    pub minus: usize,
    pub error: i16,
}
