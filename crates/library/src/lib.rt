// The library sheet: what is decoded from it, and its judge.
#![tactic(auto)]

ghost use Rattle.std.specs.Prelude.{◌≡◌, [], ◌∷◌, ◌+◌, ◌*◌, ◌≤◌, ◌<◌, length};
ghost use Rattle.std.proofs.lemmas.List.Edits.{sets};
ghost use Rattle.fields.specs.Reading.{start, times, field};
ghost use Rattle.fields.specs.Inside.Promises.{Reads, Tells, verdict_of};
ghost use Rattle.sheets_rules.specs.LibrarySheet.{bin_load, bins, head, pin, pattern, count_verdict, drawings, cell, cell_after, cells, library};
ghost use Rattle.sheets_rules.specs.Inside.Layout.{row_words, figures_at, figures, cell_words};
ghost use Rattle.sheets_rules.specs.Model.{pins_most};
ghost use Rattle.library.specs.Inside.Promises.{InReach, Tabled, HasPins, LoadsHold, BinsHold, HeadHolds, PinHolds, PinsHold, PatternHolds, RowHolds, RowKept, RowsHold, CountHolds, DrawingsHold, CellHolds, PatternsHold, CellsHold, ContentsHold};
ghost use Rattle.sheets_rules.specs.Reach.{bin_bits, head_bits, pin_bits, pattern_bits, count_bits, drawings_bits, cell_bits, library_bits};
ghost use Rattle.sheets_rules.specs.Inside.Readers.{LibraryIs};
ghost use Rattle.sheets_rules.specs.declared.Reason.TheVariants.{Library};
ghost use Rattle.sheets_rules.specs.Report.{of_library_judged, LibraryBounded, library_report};

use fields::{Fault, Flaw, Sheet};
use shapes_rules::Rules;
use sheets_rules::{
    Bins, CellRecord, Counts, LibraryRecord, Limits, PatternRow, PinRecord, Reason, Refusal, Slots,
};

// The widths of the library sheet's fields.
#[derive(Clone, Copy)]
struct Width {}

impl Width {
    const BIN_COUNT: usize = 3;

    const LOAD: usize = 8;

    const CELL_COUNT: usize = 7;

    const HELD: usize = 1;

    const AREA: usize = 16;

    const PIN_COUNT: usize = 3;

    const BIN: usize = 2;

    const INTRINSIC: usize = 16;

    const DRIVE: usize = 8;

    const DRAWING_COUNT: usize = 3;

    // A pin's number in a drawing.
    const PIN: usize = 3;
}

// A cell with its number in the library.
#[derive(Clone, Copy)]
struct NumberedCell {
    pub number: u32,
    pub cell: CellRecord,
}

// A cell's first fields: its hold mark, area, highest load and pin count.
#[derive(Clone, Copy)]
struct CellHead {
    held: bool,
    area: u16,
    highest: u8,
    pins: u32,
}

// What a library sheet says but for its rows.
#[derive(Clone, Copy)]
struct Contents {
    bins: Bins,
    counts: Counts,
}

// The bin loads: each above the one before.
fn read_loads(sheet: &mut Sheet, count: u32) -> Result<[u8; Slots::BINS], Flaw>
    requires { (count ≤ 4) × InReach sheet.old (bin_bits * count) }
    ensures { Reads sheet.old sheet.new (λ s. times count (bin_load s)) LoadsHold (bin_bits * count) result }
{
    let mut loads = [0u8; Slots::BINS];
    let mut before = 0;
    for k in 0..count {
        before = sheet.ranged(Width::LOAD, before + 1, Limits::LOAD)?;
        loads[k as usize] = before as u8;
    }
    Ok(loads)
}

// The bins.
// `read_bins`, `read_pins`, `read_cells` and `read_links` of parts are alike but for what they read and its limits, which one function for all would be told.
fn read_bins(sheet: &mut Sheet) -> Result<Bins, Flaw>
    requires { InReach sheet.old (3 + bin_bits * 4) }
    ensures { Reads sheet.old sheet.new bins BinsHold (3 + bin_bits * 4) result }
{
    let count = sheet.ranged(Width::BIN_COUNT, 1, Limits::BINS)?;
    let loads = read_loads(sheet, count)?;
    Ok(Bins {
        count: count as usize,
        loads,
    })
}

// A cell's first fields.
#[tactic(auto, unfolding(sheets_rules::specs::LibrarySheet::head))]
fn read_head(sheet: &mut Sheet) -> Result<CellHead, Flaw>
    requires { InReach sheet.old head_bits }
    ensures { Reads sheet.old sheet.new head HeadHolds head_bits result }
{
    let held = sheet.ranged(Width::HELD, 0, 1)?;
    let area = sheet.ranged(Width::AREA, 1, Limits::AREA)?;
    let highest = sheet.ranged(Width::LOAD, 0, Limits::LOAD)?;
    let pins = sheet.ranged(Width::PIN_COUNT, 1, Limits::PINS)?;
    Ok(CellHead {
        held: held == 1,
        area: area as u16,
        highest: highest as u8,
        pins,
    })
}

// A pin: bin number with that bin's load, intrinsic delay and drive.
#[tactic(auto, unfolding(sheets_rules::specs::LibrarySheet::pin))]
fn read_pin(sheet: &mut Sheet, bins: Bins) -> Result<PinRecord, Flaw>
    requires { (bins.count ≤ 4) × InReach sheet.old pin_bits }
    ensures { Reads sheet.old sheet.new (λ s. pin s bins.count []) (PinHolds bins) pin_bits result }
{
    let bin = sheet.ranged(Width::BIN, 0, (bins.count as u32).saturating_sub(1))?;
    let intrinsic = sheet.ranged(Width::INTRINSIC, 0, Limits::INTRINSIC)?;
    let drive = sheet.ranged(Width::DRIVE, 0, Limits::DRIVE)?;
    Ok(PinRecord {
        bin: bin as u8,
        load: bins.loads[bin as usize],
        intrinsic: intrinsic as u16,
        drive: drive as u8,
    })
}

// A cell's pins.
fn read_pins(sheet: &mut Sheet, bins: Bins, count: u32) -> Result<[PinRecord; Slots::PINS], Flaw>
    requires { (bins.count ≤ 4) × (count ≤ 6) × InReach sheet.old (pin_bits * count) }
    ensures { Reads sheet.old sheet.new (λ s. times count (pin s bins.count)) (PinsHold bins) (pin_bits * count) result }
{
    let mut pins = [PinRecord::NONE; Slots::PINS];
    for k in 0..count {
        pins[k as usize] = read_pin(sheet, bins)?;
    }
    Ok(pins)
}

// A pattern of a cell with `pins` pins: its size, and its symbols into `symbols`.
fn read_pattern(sheet: &mut Sheet, pins: u32, symbols: &mut [u32]) -> Result<usize, Flaw>
    requires { HasPins pins × (length symbols.old ≡ 16) × InReach sheet.old pattern_bits }
    ensures { Reads sheet.old sheet.new (λ s. pattern s pins []) (PatternHolds symbols.old symbols.new) pattern_bits result }
{
    let rules = Rules {
        width: Width::PIN,
        most: pins.saturating_sub(1),
        nodes: Limits::PATTERN_NODES,
        pattern: true,
    };
    let first = sheet.at;
    let mut drawn = [0u32; Rules::NODES];
    let read = shapes::read_shape(sheet, rules, &mut drawn)?;
    if !read.whole {
        return Err(Flaw::at(first, Fault::Drawing));
    }
    symbols[..read.size].copy_from_slice(&drawn[..read.size]);
    Ok(read.size)
}

// The figures of a cell's pins into a pattern's row.
fn write_figures(row: &mut [u32], cell: CellRecord)
    requires { length row.old ≡ row_words }
    ensures { row.new ≡ sets row.old figures_at (figures cell pins_most) }
{
    for p in 0..Slots::PINS {
        let pin = cell.pins[p];
        let at = PatternRow::FIGURES + PatternRow::PIN * p;
        row[at..at + PatternRow::PIN].copy_from_slice(&[
            u32::from(pin.bin),
            u32::from(pin.load),
            u32::from(pin.intrinsic),
            u32::from(pin.drive),
        ]);
    }
}

// A cell's number and its words into a pattern's row.
fn write_cell(row: &mut [u32], numbered: NumberedCell)
    requires { length row.old ≡ row_words }
    ensures { row.new ≡ sets row.old 0 (numbered.number ∷ cell_words numbered.cell) }
{
    let cell = numbered.cell;
    row[..PatternRow::FIGURES].copy_from_slice(&[
        numbered.number,
        u32::from(cell.held),
        u32::from(cell.area),
        u32::from(cell.highest),
        u32::from(cell.count),
    ]);
    write_figures(row, cell);
}

// A pattern's row: its cell's words, its size and its symbols.
fn read_row(sheet: &mut Sheet, numbered: NumberedCell, row: &mut [u32]) -> Result<(), Flaw>
    requires { HasPins numbered.cell.count × (length row.old ≡ row_words) × InReach sheet.old pattern_bits }
    ensures { Reads sheet.old sheet.new (λ s. pattern s numbered.cell.count []) (RowHolds numbered row.old row.new) pattern_bits result }
{
    write_cell(row, numbered);
    let pins = u32::from(numbered.cell.count);
    let size = read_pattern(sheet, pins, &mut row[PatternRow::SYMBOLS..])?;
    row[PatternRow::SIZE] = size as u32;
    Ok(())
}

// A pattern with a number, and its row where rows are kept.
fn keep_row(
    sheet: &mut Sheet,
    numbered: NumberedCell,
    number: usize,
    rows: &mut [u32],
) -> Result<(), Flaw>
    requires { HasPins numbered.cell.count × Tabled rows.old × (number < 128) × InReach sheet.old pattern_bits }
    ensures { Reads sheet.old sheet.new (λ s. pattern s numbered.cell.count []) (RowKept numbered number rows.old rows.new) pattern_bits result }
{
    if rows.is_empty() {
        let mut symbols = [0u32; Limits::PATTERN_NODES];
        read_pattern(sheet, u32::from(numbered.cell.count), &mut symbols)?;
        return Ok(());
    }
    let first = PatternRow::WORDS * number;
    read_row(sheet, numbered, &mut rows[first..first + PatternRow::WORDS])
}

// The rows of a cell's patterns, after `total` rows.
fn read_rows(
    sheet: &mut Sheet,
    numbered: NumberedCell,
    total: usize,
    count: usize,
    rows: &mut [u32],
) -> Result<(), Flaw>
    requires { HasPins numbered.cell.count × Tabled rows.old × (total + count ≤ 128) × InReach sheet.old (pattern_bits * count) }
    ensures { Reads sheet.old sheet.new (λ s. times count (pattern s numbered.cell.count)) (RowsHold numbered total rows.old rows.new) (pattern_bits * count) result }
{
    for k in 0..count {
        keep_row(sheet, numbered, total + k, rows)?;
    }
    Ok(())
}

// The verdict on a pattern count, after `total` patterns.
#[tactic(auto, unfolding(sheets_rules::specs::LibrarySheet::count_verdict))]
fn count_verdict(total: usize, count: u32) -> Result<(), Fault>
    requires { total ≤ 128 }
    ensures { verdict_of result ≡ count_verdict total count }
{
    if Limits::PATTERNS < total + count as usize {
        return Err(Fault::Size);
    }
    fields::in_range(1, Limits::DRAWINGS, count)
}

// A cell's pattern count, after `total` patterns.
// Not `ranged`: the verdict has a limit on the total before that on the count.
fn read_count(sheet: &mut Sheet, total: usize) -> Result<usize, Flaw>
    requires { (total ≤ 128) × InReach sheet.old count_bits }
    ensures { Reads sheet.old sheet.new (λ s. field s 3 (count_verdict total)) (CountHolds total) count_bits result }
{
    let before = sheet.at;
    let count = sheet.raw(Width::DRAWING_COUNT)?;
    fields::settle(before, count_verdict(total, count))?;
    Ok(count as usize)
}

// A cell's patterns, after `total` rows: how many they are.
fn read_drawings(
    sheet: &mut Sheet,
    numbered: NumberedCell,
    total: usize,
    rows: &mut [u32],
) -> Result<usize, Flaw>
    requires { HasPins numbered.cell.count × Tabled rows.old × (total ≤ 128) × InReach sheet.old drawings_bits }
    ensures { Reads sheet.old sheet.new (λ s. drawings s numbered.cell.count total) (DrawingsHold numbered total rows.old rows.new) drawings_bits result }
{
    let count = read_count(sheet, total)?;
    read_rows(sheet, numbered, total, count, rows)?;
    Ok(count)
}

// The cell with a number, after `total` patterns: how many it has.
fn read_cell(
    sheet: &mut Sheet,
    bins: Bins,
    number: u32,
    total: usize,
    rows: &mut [u32],
) -> Result<usize, Flaw>
    requires { (bins.count ≤ 4) × Tabled rows.old × (total ≤ 128) × InReach sheet.old cell_bits }
    ensures { Reads sheet.old sheet.new (λ s. cell s bins.count total) (CellHolds bins number total rows.old rows.new) cell_bits result }
{
    let head = read_head(sheet)?;
    let pins = read_pins(sheet, bins, head.pins)?;
    let cell = CellRecord {
        held: head.held,
        area: head.area,
        highest: head.highest,
        count: head.pins as u8,
        pins,
    };
    read_drawings(sheet, NumberedCell { number, cell }, total, rows)
}

// The cells, of which there are `count`: how many patterns they have.
fn read_each_cell(
    sheet: &mut Sheet,
    bins: Bins,
    count: u32,
    rows: &mut [u32],
) -> Result<usize, Flaw>
    requires { (bins.count ≤ 4) × (count ≤ 64) × Tabled rows.old × InReach sheet.old (cell_bits * count) }
    ensures { Reads sheet.old sheet.new (λ s. times count (cell_after s bins.count)) (PatternsHold bins rows.old rows.new) (cell_bits * count) result }
{
    let mut total = 0;
    for k in 0..count {
        total += read_cell(sheet, bins, k, total, rows)?;
    }
    Ok(total)
}

// The cells.
fn read_cells(sheet: &mut Sheet, bins: Bins, rows: &mut [u32]) -> Result<Counts, Flaw>
    requires { (bins.count ≤ 4) × Tabled rows.old × InReach sheet.old (7 + cell_bits * 64) }
    ensures { Reads sheet.old sheet.new (λ s. cells s bins.count) (CellsHold bins rows.old rows.new) (7 + cell_bits * 64) result }
{
    let count = sheet.ranged(Width::CELL_COUNT, 1, Limits::CELLS)?;
    let patterns = read_each_cell(sheet, bins, count, rows)?;
    Ok(Counts {
        cells: count as usize,
        patterns,
    })
}

// The library sheet, its rows laid out in a table where rows are kept.
fn read_sheet(s: &[u8], rows: &mut [u32]) -> Result<Contents, Flaw>
    requires { Tabled rows.old }
    ensures { Tells (ContentsHold rows.old rows.new) (library s.now start) library_bits result }
{
    let mut sheet = Sheet::open(s);
    let bins = read_bins(&mut sheet)?;
    let counts = read_cells(&mut sheet, bins, rows)?;
    sheet.end()?;
    Ok(Contents { bins, counts })
}

// A library sheet's refusal.
fn refuse(flaw: Flaw) -> Refusal
    ensures { result ≡ record { item = 0; reason = Library flaw.fault; place = flaw.place } }
{
    Refusal {
        item: 0,
        reason: Reason::Library(flaw.fault),
        place: flaw.place,
    }
}

// The library sheet.
pub fn read_library(s: &[u8]) -> Result<LibraryRecord, Refusal>
    ensures { LibraryIs s.now result }
{
    let mut rows = [0u32; PatternRow::TABLE];
    let read = read_sheet(s, &mut rows).map_err(refuse)?;
    Ok(LibraryRecord {
        bins: read.bins,
        count: read.counts.cells,
        total: read.counts.patterns,
        rows,
    })
}

// Judges a library: its cell count and its pattern count, or what is wrong with it and where. No rows are kept.
pub fn judge_library(s: &[u8]) -> Result<Counts, Refusal>
    ensures result_value { of_library_judged result ≡ library_report s.now }
    ensures library_bounded { LibraryBounded (of_library_judged result) }
{
    let read = read_sheet(s, &mut []).map_err(refuse)?;
    Ok(read.counts)
}
