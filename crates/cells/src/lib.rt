// Records and cells: what stands at a position of the board file, what the cell there drives, and
// refusal 6.
#![tactic(auto)]

ghost use Rattle.std.specs.Prelude.{◌≡◌, ◌<◌, ◌/◌, ◌∷◌, [], ◌&&◌, ltb};
ghost use Rattle.rules.specs.File.{record_at, of_kind2, record_of, broken_at, board_of, cells_of, nets_of, block_records, table_of, net_of};
ghost use Rattle.rules.specs.Refusals.{judge, each, most_cells};
ghost use Rattle.rules.specs.File as File;
ghost use Rattle.rules.specs.Drivers.{driver_at};
ghost use Rattle.cells.specs.Whole.{Shaped, Sized, Whole};

use rules::{
    BLOCK_RECORDS, BLOCK_SIZE, Cell, Driver, HEAD_SIZE, NONE, Net, Position, RECORD_SIZE, Verdict,
};

// Where the record of position 0 begins, and the bytes of a block that are not of its records.
const FIRST_RECORD: usize = BLOCK_SIZE + HEAD_SIZE;

const SPARE_BYTES: usize = BLOCK_SIZE - RECORD_SIZE * BLOCK_RECORDS;

// The lowest kind of cell that is an output.
const FIRST_OUTPUT: u8 = 3;

// NEAR_PART / NEAR_WHOLE, 49,933 / 4,194,304, is 1 / BLOCK_RECORDS and a little more.
const NEAR_WHOLE: u32 = 4194304;

const NEAR_PART: u32 = NEAR_WHOLE / (BLOCK_RECORDS as u32) + 1;

// The block of cells of position p, counted from 0: p / BLOCK_RECORDS by one product, since every record read asks
// for it. That little more brings no position below most_cells into the next block, and first brings 61,739 there:
// the proof, which computes, fails for a most_cells above 61,739. The product fills 32 bits: of a wider one the
// compiler masks the bits that it knows to be 0, at every record.
fn block_of(p: Position) -> usize
    requires { p.0 < most_cells }
    ensures { result ≡ p.0 / block_records }
{
    (p.0 as u32 * NEAR_PART / NEAR_WHOLE) as usize
}

// Where the record of position p begins: records follow each other, but for the spare bytes of the blocks between.
fn record_start(p: Position) -> usize
    requires { p.0 < most_cells }
    ensures { result ≡ record_at p.0 }
{
    FIRST_RECORD + RECORD_SIZE * p.0 as usize + SPARE_BYTES * block_of(p)
}

// k is the position of a kind 2 cell.
fn of_kind_2(file: &[u8], cells: usize, k: Position) -> bool
    requires shaped { Shaped file.now }
    requires cells_value { cells ≡ cells_of file.now }
    ensures { result ≡ of_kind2 file.now k.0 }
{
    if (k.0 as usize) < cells {
        let at = record_start(k);
        return file[at] == 2;
    }
    false
}

// All three columns are as the table has them.
fn columns(on: bool, control: bool, net: bool) -> bool
    ensures { result ≡ (on && control && net) }
{
    on && control && net
}

// "A record: cell kind (1 byte), on value (1), control position (2), net (2)".
#[derive(Clone, Copy)]
struct Fields {
    kind: u8,
    on: u8,
    control: Position,
    net: Net,
}

// The table of cell kinds: what a record with these fields means. Another record, the control cell's, is looked
// at only where the kind asks for one. The kind is the table's own number, as `table_of` has it: `Cell` is the enum that it is read into.
fn table(file: &[u8], cells: usize, nets: usize, fields: Fields) -> Option<Cell>
    requires shaped { Shaped file.now }
    requires sized { Sized file.now cells nets }
    ensures { result ≡ table_of fields.kind fields.on fields.control.0 fields.net.0 (of_kind2 file.now fields.control.0) (ltb fields.net.0 (nets_of file.now)) }
{
    let kind = fields.kind;
    let on = fields.on;
    let control = fields.control;
    let net = fields.net;
    let connected = (net.0 as usize) < nets;
    match kind {
        0 => columns(on == 0, control.0 == NONE, net.0 == NONE).then_some(Cell::Internal),
        1 => columns(on == 0, control.0 == NONE, connected).then_some(Cell::Input(net)),
        2 => columns(on < 2, control.0 == NONE, net.0 == NONE).then_some(Cell::Control(on == 1)),
        3 => columns(on == 0, of_kind_2(file, cells, control), connected).then_some(
            Cell::ThreeState(control, net),
        ),
        4 => columns(on == 0, control.0 == NONE, connected).then_some(Cell::TwoState(net)),
        5 => columns(on == 0, control.0 == NONE, connected).then_some(Cell::OpenDrain(net)),
        _ => None,
    }
}

// What the record at position p means.
fn record_of(file: &[u8], cells: usize, nets: usize, p: Position) -> Option<Cell>
    requires shaped { Shaped file.now }
    requires sized { Sized file.now cells nets }
    requires p_lt_cells { p.0 < cells }
    ensures { result ≡ record_of file.now p.0 }
{
    let at = record_start(p);
    let kind = file[at];
    let on = file[at + 1];
    let control = Position(blocks::pair(file, at + 2));
    let net = Net(blocks::pair(file, at + 4));
    table(
        file,
        cells,
        nets,
        Fields {
            kind,
            on,
            control,
            net,
        },
    )
}

// Refusal 6: a record breaks the table, at the lowest position.
pub fn records_verdict(file: &[u8], cells: usize, nets: usize) -> Verdict
    requires shaped { Shaped file.now }
    requires sized { Sized file.now cells nets }
    ensures { result ≡ judge (each 6 (cells_of file.now) (broken_at file.now) ∷ []) }
{
    let broken = |p: usize| -> bool
        requires shaped { Shaped file.now }
        requires sized { Sized file.now cells nets }
        requires p_lt_cells { p < cells }
        ensures { result ≡ broken_at file.entry.now p }
    { record_of(file, cells, nets, Position(p as u16)).is_none() };
    rules::each(6, cells, broken)
}

// What the record at position p of a whole file says: its kind alone tells which columns its cell holds,
// since check 6 has looked at each of them.
fn plain_record(file: &[u8], p: Position) -> Option<Cell>
    requires { Whole file.now p.0 }
    ensures { result ≡ record_of file.now p.0 }
{
    let at = record_start(p);
    let kind = file[at];
    match kind {
        0 => Some(Cell::Internal),
        1 => Some(Cell::Input(Net(blocks::pair(file, at + 4)))),
        2 => Some(Cell::Control(file[at + 1] == 1)),
        3 => Some(Cell::ThreeState(
            Position(blocks::pair(file, at + 2)),
            Net(blocks::pair(file, at + 4)),
        )),
        4 => Some(Cell::TwoState(Net(blocks::pair(file, at + 4)))),
        5 => Some(Cell::OpenDrain(Net(blocks::pair(file, at + 4)))),
        _ => None,
    }
}

// The cell at position p of a whole file: no record of it is broken.
#[tactic(auto, unfolding(rules::specs::File::board_of))]
pub fn cell_at(file: &[u8], p: Position) -> Cell
    requires { Whole file.now p.0 }
    ensures { result ≡ (board_of file.now).cell p.0 }
{
    plain_record(file, p).unwrap_or(Cell::Internal)
}

// The net at position p of a whole file, or 65,535: what a walk along drivers needs of their records. No Option: it is asked of outputs,
// which have a net, and 65,535 is the record's own number, as `net_of` has it.
pub fn net_at(file: &[u8], p: Position) -> Net
    requires { Whole file.now p.0 }
    ensures { result.0 ≡ net_of ((board_of file.now).cell p.0) }
{
    Net(blocks::pair(file, record_start(p) + 4))
}

// What the cell at position p of a whole file drives: the one place that knows which kinds of cells are
// drivers, and of which control cell. Every walk along drivers asks it, so it reads the record's bytes itself,
// and tells first the kinds that are no outputs, since most cells are of these.
pub fn driver_at(file: &[u8], p: Position) -> Option<Driver>
    requires { Whole file.now p.0 }
    ensures { result ≡ driver_at (board_of file.now) p.0 }
{
    let at = record_start(p);
    let kind = file[at];
    let control = Position(blocks::pair(file, at + 2));
    let net = Net(blocks::pair(file, at + 4));
    if kind < FIRST_OUTPUT {
        return None;
    }
    match kind {
        3 => Some(Driver { control, net }),
        5 => Some(Driver { control: p, net }),
        _ => None, // always on
    }
}
