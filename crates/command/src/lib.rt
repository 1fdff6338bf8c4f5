// Commands in the ring: what a header and a count word say, the refusals 21, 30, 31, 29, 32 and 22, the words that must wait, the
// registers and the lookup table after loading, and the read pointer after it.
#![tactic(auto)]

ghost use Rattle.std.specs.Prelude.{◌≡◌, not, ◌||◌, true, false, List, ℕ, ◌+◌, ◌%◌, ◌≤◌, ◌<◌, length, get_or, if◌then◌else◌};
ghost use Rattle.model.specs.Bits.{field};
ghost use Rattle.model.specs.Choice.{◌=?◌};
ghost use Rattle.model.specs.Limits.{ring_least, table_length};
ghost use Rattle.model.specs.Registers.{register_count};
ghost use Rattle.model.specs.Numbers.{number_of_check};
ghost use Rattle.model.specs.Refusals.{first};
ghost use Rattle.model.specs.Lookup.{data_type, data_count, bad_count, index_after, data_stored};
ghost use Rattle.model.specs.Command.{returns, kind_of, bad_header, is_data, word_registers, count_place, count_word, command_length, drawn_by, bad_return, bad_table, bad_data_count, bad_data_word, bad_data, header_rules, bad_start, whole_words, read_after, enabled, loaded, loaded_table};
ghost use Rattle.model.specs.declared.Kind.TheVariants.{Vector as VectorKind, Table as TableKind};
ghost use Rattle.command.specs.Look.{numbered, needed_words, whole, look, is_ready};
ghost use Rattle.command.specs.Pieces.{InPiece};

use model::{Kind, LUT_INDEX, Primitive, REGISTERS, Refusal, TABLE};

// ---- the header and the count word

// The command's kind.
pub fn kind_of(header: u32) -> Kind
    ensures { result ≡ kind_of header }
{
    match fields::bits(header, 30, 29) {
        0b00 => Kind::Blt,
        0b01 => Kind::Vector,
        0b10 => Kind::Table,
        _ => Kind::Data,
    }
}

// Whether a bit is set that must be zero.
fn bad_header(header: u32) -> bool
    ensures { result ≡ bad_header header }
{
    match fields::bits(header, 30, 29) {
        0b00 => fields::bits(header, 27, 16) != 0,
        0b01 => fields::bits(header, 27, 13) != 0,
        0b10 => fields::bits(header, 27, 2) != 0,
        _ => fields::bits(header, 27, 1) != 0,
    }
}

// Whether it returns to ring word 0 afterwards: W.
pub fn returns(header: u32) -> bool
    ensures { result ≡ returns header }
{
    fields::is_set(header, 31)
}

// The place of the count word, or that of the header where there is none. It and `word_count` are two columns of the table of kinds: one
// function would only answer a pair.
fn count_place(kind: Kind) -> usize
    ensures place { result ≡ count_place kind }
    ensures few { result < 3 }
{
    match kind {
        Kind::Blt | Kind::Vector => 0,
        Kind::Table => 2,
        Kind::Data => 1,
    }
}

// The word there, of a command of this kind at this position.
pub fn count_word(ring: &[u32], read: usize, kind: Kind) -> u32
    requires read_in { read < length ring.now }
    requires least { ring_least ≤ length ring.now }
    ensures { result ≡ count_word kind ring.now read }
{
    ring::word_at(ring, read, count_place(kind))
}

// How many data words a table load or a data command has.
fn data_count(counted: u32) -> usize
    ensures { result ≡ data_count counted }
{
    fields::number(counted, 15, 0)
}

// Whether a count word has another DTYPE than this, or a reserved bit set.
fn is_other(counted: u32, dtype: u32) -> bool
    ensures { result ≡ (not (data_type counted =? dtype) || not (field counted 28 16 =? 0)) }
{
    fields::bits(counted, 31, 29) != dtype || fields::bits(counted, 28, 16) != 0
}

// Whether a table load's count word has another DTYPE than 011, a reserved bit set, or a count of 0 or above 512.
#[tactic(auto, unfolding(model::specs::Lookup::bad_count))]
fn bad_count(counted: u32) -> bool
    ensures { result ≡ bad_count counted }
{
    let count = data_count(counted);
    is_other(counted, 0b011) || count == 0 || TABLE < count
}

// Whether 32 refuses a data command's count.
pub fn bad_data_count(size: usize, count: usize) -> bool
    requires { ring_least ≤ size }
    ensures { result ≡ bad_data_count size count }
{
    count == 0 || size - 3 < count
}

// Whether a data command's count word has another DTYPE than 000, a reserved bit set, or a bad count.
#[tactic(auto, unfolding(model::specs::Command::bad_data_word))]
fn bad_data_word(size: usize, counted: u32) -> bool
    requires { ring_least ≤ size }
    ensures { result ≡ bad_data_word size counted }
{
    is_other(counted, 0b000) || bad_data_count(size, data_count(counted))
}

// How many words after the header are for registers.
fn word_count(kind: Kind) -> usize
    ensures { (result ≡ length (word_registers kind)) × (result < register_count) }
{
    match kind {
        Kind::Blt => 16,
        Kind::Vector => 13,
        Kind::Table => 1,
        Kind::Data => 0,
    }
}

// How many words a command of this kind has: few enough for every ring, if it is no data command and 29 does not apply.
pub fn length_of(kind: Kind, counted: u32) -> usize
    ensures { (result ≡ command_length kind counted) × (is_data kind ≡ false → bad_table kind counted ≡ false → result ≤ ring_least) }
{
    match kind {
        Kind::Blt => 17,
        Kind::Vector => 14,
        Kind::Table => 3 + data_count(counted),
        Kind::Data => 2 + data_count(counted),
    }
}

// What the command draws: nothing, unless its last enable is set.
#[tactic(auto, unfolding(model::specs::Command::drawn_by))]
pub fn drawn_by(header: u32) -> Option<Primitive>
    ensures { result ≡ drawn_by header }
{
    match kind_of(header) {
        Kind::Blt => fields::is_set(header, 15).then_some(Primitive::Blt),
        Kind::Vector => fields::is_set(header, 12).then_some(Primitive::Vector),
        Kind::Table | Kind::Data => None,
    }
}

// ---- waiting for a command of so many words, with W or without

// Whether W stands on a command that begins at ring word 0 or runs across the ring's end.
#[tactic(auto, using(crate::proofs::Ends::before_end), unfolding(model::specs::Command::bad_return))]
pub fn bad_return(size: usize, read: usize, length: usize, w: bool) -> bool
    requires { read < size }
    ensures { result ≡ bad_return size read length w }
{
    w && (read == 0 || size - read < length)
}

// How many words must wait before the command is whole.
#[tactic(auto, unfolding(model::specs::Command::whole_words))]
pub fn whole_words(size: usize, read: usize, length: usize, w: bool) -> usize
    requires { read < size }
    ensures { result ≡ whole_words size read length w }
{
    if w { length.max(size - read) } else { length }
}

// Whether its header alone refuses the command.
fn bad_start(wants: bool, header: u32) -> bool
    ensures { result ≡ bad_start wants header }
{
    bad_header(header) || wants != (kind_of(header) == Kind::Data)
}

// The place n further on, of `size` places that go round.
pub fn ahead(size: usize, at: usize, n: usize) -> usize
    requires { (at < size) × (n ≤ size) }
    ensures { (result ≡ (at + n) % size) × (result < size) }
{
    let rest = size - at;
    if n < rest { at + n } else { n - rest }
}

// Where the read pointer stands after the command.
#[tactic(auto, unfolding(model::specs::Command::read_after))]
pub fn read_after(size: usize, read: usize, length: usize, w: bool) -> usize
    requires { (read < size) × (length ≤ size) }
    ensures { result ≡ read_after size read length w }
{
    if w { 0 } else { ahead(size, read, length) }
}

// ---- one look at the header

// What stands at the read pointer: a command of which too few words wait, one that its header or its count word refuses, or a whole
// one: a data command with its count and its W, or, with where the read pointer stands after it, a table load with its count, or any
// other with what it draws. Three have values of their own beside the refusal, so an Option or a Result would hold such an enum too.
#[derive(Clone, Copy)]
pub enum Seen {
    Waits,
    Refused(Refusal),
    Whole {
        drawn: Option<Primitive>,
        next: usize,
    },
    Table {
        count: usize,
        next: usize,
    },
    Data {
        count: u32,
        returns: bool,
    },
}

// The command at the read pointer of a ring of `size` words: its header and its count word, whether they wait or not.
#[derive(Clone, Copy)]
pub struct Head {
    pub size: usize,
    pub read: usize,
    pub header: u32,
    pub counted: u32,
    pub ghost least: { ring_least ≤ size },
    pub ghost read_in: { read < size },
}

impl Head {
    // Whether its header and its count word are as they must be, while a BLT wants data or not.
    #[inline(always)]
    #[tactic(auto, unfolding(model::specs::Refusals::first))]
    pub fn check(self, wants: bool) -> Result<(), Refusal>
        ensures { number_of_check result ≡ first (header_rules wants self.size self.read self.header self.counted) }
    {
        let kind = kind_of(self.header);
        let length = length_of(kind, self.counted);
        if bad_header(self.header) {
            return Err(Refusal::BadHeader);
        }
        match kind {
            Kind::Data if !wants => Err(Refusal::DataUnwanted),
            Kind::Blt | Kind::Vector | Kind::Table if wants => Err(Refusal::DataWanted),
            Kind::Table if bad_count(self.counted) => Err(Refusal::BadTableCount),
            Kind::Data if bad_data_word(self.size, self.counted) => Err(Refusal::BadDataCount),
            _ if bad_return(self.size, self.read, length, returns(self.header)) => {
                Err(Refusal::BadReturn)
            }
            _ => Ok(()),
        }
    }

    // How many words must wait before the command is accepted or, by such a check, refused.
    fn needed_words(self, wants: bool, check: Result<(), Refusal>) -> usize
        ensures { result ≡ needed_words wants self.size self.read self.header (command_length (kind_of self.header) self.counted) (number_of_check check) }
    {
        let kind = kind_of(self.header);
        let length = length_of(kind, self.counted);
        match check {
            Ok(()) => whole_words(self.size, self.read, length, returns(self.header)),
            Err(_) if bad_start(wants, self.header) => 1,
            Err(_) => 1 + count_place(kind),
        }
    }

    // What is seen of it where it is whole and nothing refuses it.
    fn whole(self) -> Seen
        requires { bad_table (kind_of self.header) self.counted ≡ false }
        ensures { numbered result ≡ whole (kind_of self.header) (drawn_by self.header) (data_count self.counted) (read_after self.size self.read (command_length (kind_of self.header) self.counted) (returns self.header)) (returns self.header) }
    {
        let kind = kind_of(self.header);
        let length = length_of(kind, self.counted);
        let w = returns(self.header);
        match kind {
            Kind::Blt | Kind::Vector => Seen::Whole {
                drawn: drawn_by(self.header),
                next: read_after(self.size, self.read, length, w),
            },
            Kind::Table => Seen::Table {
                count: data_count(self.counted),
                next: read_after(self.size, self.read, length, w),
            },
            Kind::Data => Seen::Data {
                count: fields::bits(self.counted, 15, 0),
                returns: w,
            },
        }
    }

    // What is seen of it, while a BLT wants data or not: known where it is called, so that the compiler drops what is not asked there.
    #[inline(always)]
    pub fn look(self, wants: bool, write: usize) -> Seen
        requires { write < self.size }
        ensures { numbered result ≡ look wants self.size self.read write self.header self.counted }
    {
        let check = self.check(wants);
        if ring::waiting_words(self.size, self.read, write) < self.needed_words(wants, check) {
            return Seen::Waits;
        }
        match check {
            Ok(()) => self.whole(),
            Err(refusal) => Seen::Refused(refusal),
        }
    }

    // Whether the command can be accepted or refused.
    pub fn is_ready(self, wants: bool, write: usize) -> bool
        requires { write < self.size }
        ensures { result ≡ is_ready wants self.size self.read write self.header self.counted }
    {
        self.needed_words(wants, self.check(wants))
            <= ring::waiting_words(self.size, self.read, write)
    }
}

// ---- loading

// The register of a vector's word i after the header. An array of them would be made anew for each word.
fn vector_register(i: usize) -> usize
    requires { i < length (word_registers VectorKind) }
    ensures { (result ≡ get_or (word_registers VectorKind) i 0) × (result < register_count) }
{
    match i {
        0 => model::RASTER_MODE,
        1 => model::DST_OFFSET,
        2 => model::VEC_ERR,
        3 => model::STRIDE,
        4 => model::VEC_LEN,
        5 => model::SRC_COLOR_FG,
        6 => model::PAT_COLOR_0,
        7 => model::PAT_COLOR_1,
        8 => model::PAT_DATA_0,
        9 => model::PAT_DATA_1,
        10 => model::CH3_MODE_STR,
        11 => model::BASE_OFFSET,
        _ => model::VECTOR_MODE,
    }
}

// The register of word i after the header: a BLT's words are the registers in their own order.
fn register_of(kind: Kind, i: usize) -> usize
    requires { i < length (word_registers kind) }
    ensures { (result ≡ get_or (word_registers kind) i 0) × (result < register_count) }
{
    match kind {
        Kind::Blt => i,
        Kind::Vector => vector_register(i),
        Kind::Table => LUT_INDEX,
        // it has no such word
        Kind::Data => 0,
    }
}

// The word where it is enabled, else what stood before. A function of its own: with the choice in the loop the compiler jumps over the
// words that are not enabled, and a command of `fill F0` at 1 by 1 takes 114 ns in place of 105.
fn chosen(enabled: bool, word: u32, before: u32) -> u32
    ensures { result ≡ (if enabled then word else before) }
{
    if enabled { word } else { before }
}

// The registers with the words of a command, which are lent in one piece. No word is passed over by a jump, and the kind and the number
// of words are known where it is called, so that the compiler loads several at once.
#[inline(always)]
fn load_piece(
    kind: Kind,
    registers: [u32; REGISTERS],
    words: &[u32],
    header: u32,
) -> [u32; REGISTERS]
    requires kind_is { kind_of header ≡ kind }
    requires all { length words.now ≡ length (word_registers kind) }
    ensures { (ring : List ℕ) (read : ℕ) → InPiece ring read words.now → result ≡ enabled ring read header registers }
{
    let mut out = registers;
    for i in 0..words.len() {
        let r = register_of(kind, i);
        let enabled = fields::is_set(header, i as u32);
        out[r] = chosen(enabled, words[i], out[r]);
    }
    out
}

// The registers with the words that any command has for them, which may run across the ring's end.
#[inline(never)]
fn load_each(
    registers: [u32; REGISTERS],
    ring: &[u32],
    read: usize,
    header: u32,
) -> [u32; REGISTERS]
    requires { (read < length ring.now) × (ring_least ≤ length ring.now) }
    ensures { result ≡ enabled ring.now read header registers }
{
    let kind = kind_of(header);
    let mut out = registers;
    for i in 0..word_count(kind) {
        if fields::is_set(header, i as u32) {
            let r = register_of(kind, i);
            out[r] = ring::word_at(ring, read, i + 1);
        }
    }
    out
}

// The registers as they are after loading the BLT or vector at the read pointer.
pub fn load(registers: [u32; REGISTERS], ring: &[u32], read: usize, header: u32) -> [u32; REGISTERS]
    requires { (kind_of header ≡ TableKind → ⊥) × (read < length ring.now) × (ring_least ≤ length ring.now) }
    ensures { result ≡ loaded ring.now read header registers }
{
    let rest = ring.len() - read;
    let a = read + 1;
    match kind_of(header) {
        Kind::Blt if 17 <= rest => load_piece(Kind::Blt, registers, &ring[a..a + 16], header),
        Kind::Vector if 14 <= rest => load_piece(Kind::Vector, registers, &ring[a..a + 13], header),
        _ => load_each(registers, ring, read, header),
    }
}

// ---- table loads

// The index after so many data words: its bits 8:0 go round, the others stay.
fn index_after(index: u32, count: usize) -> u32
    requires { count ≤ table_length }
    ensures { result ≡ index_after count index }
{
    let low = fields::bits(index, 8, 0);
    index - low + (low + count as u32) % 512
}

// Stores a table load's data, from its word 3 on, from where the index points on.
fn store_data(table: &mut [u32; TABLE], ring: &[u32], read: usize, index: u32, count: usize)
    requires { (read < length ring.now) × (ring_least ≤ length ring.now) × (count ≤ table_length) }
    ensures { table.new ≡ data_stored ring.now read 3 count index table.old }
{
    let mut to = fields::number(index, 8, 0);
    for i in 3..3 + count {
        table[to] = ring::word_at(ring, read, i);
        to = ahead(TABLE, to, 1);
    }
}

// Loads the table load at the read pointer: its data go into the table. Answers the registers as they are after it.
pub fn load_table(
    registers: [u32; REGISTERS],
    table: &mut [u32; TABLE],
    ring: &[u32],
    read: usize,
    header: u32,
    count: usize,
) -> [u32; REGISTERS]
    requires { (kind_of header ≡ TableKind) × (count ≡ data_count (count_word TableKind ring.now read)) × (count ≤ table_length) × (read < length ring.now) × (ring_least ≤ length ring.now) }
    ensures registers { result ≡ loaded ring.now read header registers }
    ensures table { table.new ≡ loaded_table ring.now read header registers table.old }
{
    let mut out = load_each(registers, ring, read, header);
    let index = out[LUT_INDEX];
    store_data(table, ring, read, index, count);
    out[LUT_INDEX] = index_after(index, count);
    out
}
