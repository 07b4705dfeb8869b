// What a pattern's row says of its cell: whether a match of it is legal under a load, its pins' figures, and what a pin adds under a load.
#![tactic(auto)]

ghost use Rattle.std.specs.Prelude.{◌≡◌, ◌<◌, ◌≤◌, length};
ghost use Rattle.sheets_rules.specs.Model.{pins_most};
ghost use Rattle.sheets_rules.specs.Inside.Layout.{row_words};
ghost use Rattle.cells.specs.Inside.Cell.{row_legal, row_figures, delay_of, PinSafe, slowest};

use sheets_rules::PatternRow;

// What a pin has: its load bin and that bin's load, which it presents to what drives it, its intrinsic delay and its drive.
#[derive(Clone, Copy)]
pub struct PinFigures {
    pub bin: u32,
    pub load: u32,
    pub intrinsic: u32,
    pub drive: u32,
}

// Whether a match that drives a load is legal.
#[tactic(auto, unfolding(crate::specs::Inside::Cell::row_legal))]
pub fn is_legal(row: &[u32], load: u32) -> bool
    requires { length row.now ≡ row_words }
    ensures { result ≡ row_legal row.now load }
{
    row[PatternRow::HELD] == 0 && load <= row[PatternRow::HIGHEST]
}

// The figures of the pin with a number.
#[tactic(auto, unfolding(crate::specs::Inside::Cell::row_figures))]
pub fn pin_figures(row: &[u32], pin: usize) -> PinFigures
    requires { (length row.now ≡ row_words) × (pin < pins_most) }
    ensures { result ≡ row_figures row.now pin }
{
    let at = PatternRow::FIGURES + PatternRow::PIN * pin;
    PinFigures {
        bin: row[at + PatternRow::BIN],
        load: row[at + PatternRow::LOAD],
        intrinsic: row[at + PatternRow::INTRINSIC],
        drive: row[at + PatternRow::DRIVE],
    }
}

// What a pin adds to its input's arrival when the match drives a load.
#[tactic(auto, unfolding(crate::specs::Inside::Cell::delay_of))]
pub fn delay(pin: PinFigures, load: u32) -> u32
    requires { PinSafe pin × (load ≤ 255) }
    ensures { (result ≡ delay_of pin load) × (result ≤ slowest) }
{
    pin.intrinsic + pin.drive * load
}
