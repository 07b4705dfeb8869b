// The library sheet and the tree sheet: the limits, and the types that their definitions and the promises of their readers speak of.
#![tactic(auto)]

use fields::Fault;

// Why a call is refused: each reason has its number in the papers.
#[derive(Clone, Copy)]
pub enum Reason {
    // Too little is lent.
    Short,
    // A fault of the library sheet, or of a tree sheet.
    Library(Fault),
    Tree(Fault),
    // More trade-offs at a node than it may have ("crowded"); no cover in time.
    Overfull,
    NoCover,
    // The cover sheet is torn or has a bad tail; a match stands wrongly, or the list ends early; a stated figure is not true.
    CoverSheet,
    Match,
    Figures,
    // A fault of the function sheet; a drawing that computes another function.
    FunctionSheet(Fault),
    Function,
    // A fault of a part's counts and links; a driver that is not lower; a linked arrival that is too late.
    Link,
    Driver,
    Late,
}

// A refusal: why and where, and the item that it is about: a tree of a part, or 0 where there is none.
#[derive(Clone, Copy)]
pub struct Refusal {
    pub item: u32,
    pub reason: Reason,
    pub place: usize,
}

// The papers' limits: of the sheets, of what the operations are lent, and of the program's input; and the base of a point's word, which they fix.
// A struct, so that its name tells its constants apart: `Limits::PINS`, `Slots::PINS`, `PatternRow::PINS`.
#[derive(Clone, Copy)]
pub struct Limits {}

impl Limits {
    pub const BINS: u32 = 4;

    pub const LOAD: u32 = 255;

    pub const CELLS: u32 = 64;

    pub const AREA: u32 = 65535;

    pub const PINS: u32 = 6;

    pub const INTRINSIC: u32 = 65535;

    pub const DRIVE: u32 = 255;

    pub const DRAWINGS: u32 = 7;

    pub const PATTERNS: usize = 128;

    pub const PATTERN_NODES: usize = 16;

    pub const TREE_NODES: usize = 64;

    pub const PART_TREES: usize = 16;

    pub const PART_LINKS: usize = 255;

    pub const ARRIVAL: u32 = 1000000;

    pub const TIME: u32 = 16777215;

    // How many times there are: a point's word is its area times this, plus its arrival.
    // The caller in C lends words, so a point is a word, and a curve ends at a word 0.
    pub const TIMES: u64 = Limits::TIME as u64 + 1;

    pub const POINTS: usize = 31;

    pub const OUTPUT_MAP: usize = 149;

    pub const OUTPUT_LIST: usize = 179;

    // A cover sheet for each tree of a part.
    pub const OUTPUT_PART: usize = Limits::PART_TREES * Limits::OUTPUT_MAP;

    // A curve for each of 64 nodes under each of 4 loads.
    pub const CURVES: usize = Limits::TREE_NODES * Slots::BINS;

    // The least work area: a curve takes a word more than its points.
    pub const WORK: usize = Limits::CURVES * (Limits::POINTS + 1);

    pub const INPUT: usize = 4096;
}

// How long an array is that has something for each pin, or for each bin.
// In usize, as lengths are; `Limits` has them as bounds of numbers that are read.
#[derive(Clone, Copy)]
pub struct Slots {}

impl Slots {
    pub const PINS: usize = Limits::PINS as usize;

    pub const BINS: usize = Limits::BINS as usize;
}

// A pattern's row: the number of its cell and all that is known of the cell, its size and its symbols. Where its words stand, how many there
// are, and how many a table of 128 rows has.
#[derive(Clone, Copy)]
pub struct PatternRow {}

impl PatternRow {
    pub const CELL: usize = 0;

    pub const HELD: usize = 1;

    pub const AREA: usize = 2;

    pub const HIGHEST: usize = 3;

    pub const PINS: usize = 4;

    // The figures of six pins: for each its load bin, that bin's load, its intrinsic delay and its drive.
    pub const FIGURES: usize = PatternRow::PINS + 1;

    pub const PIN: usize = 4;

    // Within a pin's words.
    pub const BIN: usize = 0;

    pub const LOAD: usize = 1;

    pub const INTRINSIC: usize = 2;

    pub const DRIVE: usize = 3;

    pub const SIZE: usize = PatternRow::FIGURES + PatternRow::PIN * Slots::PINS;

    pub const SYMBOLS: usize = PatternRow::SIZE + 1;

    pub const WORDS: usize = PatternRow::SYMBOLS + Limits::PATTERN_NODES;

    pub const TABLE: usize = PatternRow::WORDS * Limits::PATTERNS;
}

// The bin loads: the first `count` are there.
// The array and its count stand side by side: memory is fixed, and there is no heap.
#[derive(Clone, Copy)]
pub struct Bins {
    pub count: usize,
    pub loads: [u8; Slots::BINS],
}

// A pin as decoded: its load bin, that bin's load, its intrinsic delay and its drive.
#[derive(Clone, Copy)]
pub struct PinRecord {
    pub bin: u8,
    pub load: u8,
    pub intrinsic: u16,
    pub drive: u8,
}

impl PinRecord {
    // What stands where there is no pin.
    pub const NONE: PinRecord = PinRecord {
        bin: 0,
        load: 0,
        intrinsic: 0,
        drive: 0,
    };
}

// A cell as decoded: its first `count` pins are there.
#[derive(Clone, Copy)]
pub struct CellRecord {
    pub held: bool,
    pub area: u16,
    pub highest: u8,
    pub count: u8,
    pub pins: [PinRecord; Slots::PINS],
}

// A library as decoded: the bin loads, how many cells there are, and a row for each of the `total` patterns.
// The array and its count stand side by side: memory is fixed, and there is no heap.
#[derive(Clone, Copy)]
pub struct LibraryRecord {
    pub bins: Bins,
    pub count: usize,
    pub total: usize,
    pub rows: [u32; PatternRow::TABLE],
}

// How many cells and patterns a library has.
#[derive(Clone, Copy)]
pub struct Counts {
    pub cells: usize,
    pub patterns: usize,
}

// A tree as decoded: its nodes' symbols in preorder, and how many nodes stand under each.
// The array and its count stand side by side: memory is fixed, and there is no heap.
#[derive(Clone, Copy)]
pub struct TreeRecord {
    pub load: u8,
    pub required: u32,
    pub count: usize,
    pub symbols: [u32; Limits::TREE_NODES],
    pub sizes: [u8; Limits::TREE_NODES],
}
