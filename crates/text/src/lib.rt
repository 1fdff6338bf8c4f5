// Text: the lines that the programs write of the engine's answers.
#![tactic(auto)]

ghost use Rattle.std.specs.Prelude.{◌≡◌, ◌+◌, ◌≤◌, [], ◌++◌, length};
ghost use Rattle.text.specs.Numerals.{decimal, hexadecimal};
ghost use Rattle.text.specs.Lines.{run_kind, kind_state, kind_answer, parts_of, place_name, call_name, replay_lines, bad_line, call_line, crc_line};
ghost use Rattle.text.specs.Buffers.{buffer_length};

use model::{Answer, Place, Primitive, Reply, RunWord};
use std::marker::Model;

// ---- text in a buffer

// The most bytes of a text: few, since a text goes by value.
const BUFFER_LENGTH: usize = 512;

// A text in a buffer of its own, which holds every line. The bytes behind it are zeros, so that the text alone gives the buffer.
#[derive(Clone, Copy)]
pub struct Text {
    bytes: [u8; BUFFER_LENGTH],
    length: usize,
}

impl Model for Text {
    ghost use Rattle.std.specs.Prelude.{ℕ, List, take};
    ghost use Rattle.text.specs.Buffers.{padded, text_length, IsPadded, padded_text, end_of_text};

    ghost Value = { List ℕ };

    ghost view = { λ text. take text.length text.bytes };

    ghost invariant = { λ text. IsPadded text.length text.bytes };

    ghost inverse = { λ text. record { bytes = padded text; length = text_length text } };

    ghost inverse_ok = { λ text h i. record {
      bytes = padded_text text.length text.bytes h i;
      length = end_of_text text.length text.bytes h i;
    } };
}

impl Text {
    pub fn new() -> Text
        ensures { result ≡ [] }
    {
        Text {
            bytes: [0; BUFFER_LENGTH],
            length: 0,
        }
    }

    pub fn as_bytes(&self) -> &[u8]
        ensures { result.now ≡ self.now }
    {
        &self.bytes[..self.length]
    }

    // Puts bytes after the text.
    fn put(&mut self, bytes: &[u8])
        requires { length self.old + length bytes.now ≤ buffer_length }
        ensures { self.new ≡ self.old ++ bytes.now }
    {
        let end = self.length + bytes.len();
        self.bytes[self.length..end].copy_from_slice(bytes);
        self.length = end;
    }

    // A number's decimal digits. (Beside the hexadecimal ones: the library has a function for each.)
    fn put_decimal(&mut self, n: u64)
        requires { length self.old + 20 ≤ buffer_length }
        ensures text { self.new ≡ self.old ++ decimal n }
        ensures most { length self.new ≤ length self.old + 20 }
    {
        let mut digits = [0u8; 20];
        let k = io::decimal(n, &mut digits);
        self.put(&digits[..k]);
    }

    // A word's hexadecimal digits. (The library has a function for each kind of digits, so there are two here.)
    fn put_hexadecimal(&mut self, n: u32)
        requires { length self.old + 8 ≤ buffer_length }
        ensures text { self.new ≡ self.old ++ hexadecimal n }
        ensures most { length self.new ≤ length self.old + 8 }
    {
        let mut digits = [0u8; 16];
        let k = io::hex(n as u64, 8, &mut digits);
        self.put(&digits[..k]);
    }

    // A key and its number.
    fn put_value(&mut self, key: &[u8], n: u64)
        requires { length self.old + length key.now + 20 ≤ buffer_length }
        ensures text { self.new ≡ self.old ++ (key.now ++ decimal n) }
        ensures most { length self.new ≤ length self.old + length key.now + 20 }
    {
        self.put(key);
        self.put_decimal(n);
    }

    // What a call answers, from the parts of the answer.
    fn put_answer(&mut self, parts: Parts)
        requires { length self.old + 40 ≤ buffer_length }
        ensures text { self.new ≡ self.old ++ kind_answer parts.kind parts.number }
        ensures most { length self.new ≤ length self.old + 40 }
    {
        match parts.kind {
            Kind::Accepted => self.put(b"0"),
            Kind::Refused => self.put_value(b"refused-", parts.number as u64),
            Kind::Stopped | Kind::Waiting | Kind::Spent => self.put(state_word(parts.kind)),
        }
    }

    // The command in progress, and how many of its pixels are drawn.
    fn put_place(&mut self, place: Place)
        requires { length self.old + 40 ≤ buffer_length }
        ensures text { self.new ≡ self.old ++ place_name place }
        ensures most { length self.new ≤ length self.old + 40 }
    {
        match place {
            Place::Idle => self.put(b"none"),
            Place::Drawing(Primitive::Vector, k) => self.put_value(b"vector-", k as u64),
            Place::Drawing(Primitive::Blt, k) | Place::Wanting(k) | Place::Fed(k, _) => {
                self.put_value(b"blt-", k as u64)
            }
        }
    }
}

// ---- what an answer says

// What an answer comes to: no Option or Result, since a run comes to one of three words.
#[derive(Clone, Copy, Debug, PartialEq, Eq)]
pub enum Kind {
    Accepted,
    Refused,
    Stopped,
    Waiting,
    Spent,
}

impl From<RunWord> for Kind {
    ghost from_gives = { λ word r. r ≡ run_kind word };

    fn from(word: RunWord) -> Kind {
        match word {
            RunWord::Stopped => Kind::Stopped,
            RunWord::Waiting => Kind::Waiting,
            RunWord::Spent => Kind::Spent,
        }
    }
}

// An answer's parts. The last is the number that refused or stopped, or 0, as the lines and `bench_draw` have it.
#[derive(Clone, Copy)]
pub struct Parts {
    pub kind: Kind,
    pub number: u32,
    pub units: u32,
    pub room: usize,
    pub last: u32,
}

pub fn parts_of(a: Answer) -> Parts
    ensures { result ≡ parts_of a }
{
    match a.reply {
        Reply::Refused(number) => Parts {
            kind: Kind::Refused,
            number,
            units: 0,
            room: 0,
            last: number,
        },
        Reply::Accepted { room } => Parts {
            kind: Kind::Accepted,
            number: 0,
            units: 0,
            room,
            last: 0,
        },
        Reply::Ran { word, units, room } => Parts {
            kind: Kind::from(word),
            number: 0,
            units,
            room,
            last: a.state.core.stop,
        },
    }
}

// The word of a replay's end.
fn state_word(kind: Kind) -> &'static [u8]
    ensures { result.now ≡ kind_state kind }
{
    match kind {
        Kind::Refused => b"refused",
        Kind::Stopped => b"stopped",
        Kind::Accepted | Kind::Waiting => b"waiting",
        Kind::Spent => b"spent",
    }
}

// The call of a number in a trace. (A number, since `call_line` promises its line for every one.)
fn call_word(op: u32) -> &'static [u8]
    ensures word { result.now ≡ call_name op }
    ensures most { length result.now ≤ 7 }
{
    match op {
        0 => b"setup",
        1 => b"publish",
        2 => b"run",
        3 => b"room",
        4 => b"restart",
        _ => b"",
    }
}

// ---- the lines

// The lines of a replay that ended with an answer.
pub fn replay_lines(a: Answer) -> Text
    ensures { result ≡ replay_lines a }
{
    let c = a.state.core;
    let parts = parts_of(a);
    let mut text = Text::new();
    text.put_value(b"retired=", c.completion as u64);
    text.put_value(b"\nunits=", parts.units as u64);
    text.put_value(b"\nread=", c.read as u64);
    text.put_value(b"\nwrite=", a.state.write as u64);
    text.put(b"\nstate=");
    text.put(state_word(parts.kind));
    text.put_value(b"\nrefusal=", parts.last as u64);
    text.put(b"\n");
    text
}

// The line of a bad recording.
pub fn bad_line() -> Text
    ensures { result ≡ bad_line }
{
    let mut text = Text::new();
    text.put(b"recording=bad\n");
    text
}

// The line of a call of a trace and its answer. The call is setup where the op is 0. (A number: it promises its line for every one.)
pub fn call_line(op: u32, a: Answer) -> Text
    ensures { result ≡ call_line op a }
{
    let c = a.state.core;
    let parts = parts_of(a);
    let mut text = Text::new();
    text.put(b"call=");
    text.put(call_word(op));
    text.put(b" answer=");
    text.put_answer(parts);
    text.put_value(b" units=", parts.units as u64);
    text.put_value(b" room=", parts.room as u64);
    text.put_value(b" read=", c.read as u64);
    text.put_value(b" write=", a.state.write as u64);
    text.put_value(b" retired=", c.completion as u64);
    text.put_value(b" stop=", c.stop as u64);
    text.put(b" drawing=");
    text.put_place(c.place);
    text.put(b"\n");
    text
}

// The line of frame memory's checksum.
pub fn crc_line(crc: u32) -> Text
    ensures { result ≡ crc_line crc }
{
    let mut text = Text::new();
    text.put(b"frame_crc32=");
    text.put_hexadecimal(crc);
    text.put(b"\n");
    text
}
