// A case, read from the bytes of a file.
ghost use Rattle.std.specs.Prelude.{◌≡◌, ℕ, ◌+◌, ◌<◌, ◌≤◌, List, length, drop, IfOk, MatchOption, OnOk};
ghost use Rattle.checks.specs.declared.Check.TheVariants.{FileFormat};
ghost use Rattle.checks.specs.declared.Layer.TheVariants.{File};
ghost use Rattle.checks.specs.Lists.{at};
ghost use Rattle.checks.specs.Verdicts.{fault_at};
ghost use Rattle.std.specs.Result.{result_err};
ghost use Rattle.case_file.specs.Headers.{header_of, kind_of, table_lengths_of, offsets, format_fault, sizes_fault, header_fault, reading_fault};
ghost use Rattle.case_file.specs.Cases.{Holds};

use crate::kinds::{Kind, UnknownKind};
use crate::parts::Part;
use checks::{Check, Fault, Layer};
use matrix::sizes::Size;

// The bytes that the header takes, and the place of a fault of the tables' length.
const HEADER: usize = 17;

// The fault of a file without a whole header.
const TOO_SHORT: Fault = Fault {
    check: Check::FileLength,
    place: 0,
    layer: Layer::File,
};

// What the header says, as it stands there.
#[derive(Clone, Copy)]
struct Header {
    following: u32,
    version: u8,
    kind: u8,
    sweeps: u32,
    seed_sweep: u32,
    tiles: u32,
    rows: u32,
    entries: u32,
}

// The sizes of a case and its tables, in the file's order.
#[derive(Clone, Copy)]
pub struct Case<'a> {
    pub kind: Kind,
    pub sweeps: u32,
    pub seed_sweep: u32,
    pub tiles: u32,
    pub rows: u32,
    pub entries: u32,
    pub starts: Part<'a>,
    pub columns: Part<'a>,
    pub coefficients: Part<'a>,
    pub right_hand_side: Part<'a>,
    pub vector: Part<'a>,
    pub seed: Part<'a>,
}

// Kept: a clause names the fault that the `?` makes, and only an impl of one's own says which that is.
impl From<UnknownKind> for Fault {
    ghost from_gives = { λ _ fault. fault ≡ fault_at File FileFormat 5 };

    fn from(_unknown: UnknownKind) -> Fault {
        Fault {
            check: Check::FileFormat,
            place: 5,
            layer: Layer::File,
        }
    }
}

impl Header {
    // The header and the remaining tables, or none where there are too few bytes.
    // Kept: one pattern has the bytes in the order in which the format names them.
    fn read(bytes: &[u8]) -> Option<(Header, &[u8])>
        ensures { MatchOption result (length bytes.now < 17) (λ x. (x.0 ≡ header_of bytes.now) × (x.1.now ≡ drop 17 bytes.now) × (17 ≤ length bytes.now)) }
    {
        let [
            l0,
            l1,
            l2,
            l3,
            version,
            kind,
            sweeps,
            seed_sweep,
            tiles,
            r0,
            r1,
            r2,
            r3,
            e0,
            e1,
            e2,
            e3,
            tables @ ..,
        ] = bytes
        else {
            return None;
        };
        let header = Header {
            following: u32::from_be_bytes([*l0, *l1, *l2, *l3]),
            version: *version,
            kind: *kind,
            sweeps: *sweeps as u32,
            seed_sweep: *seed_sweep as u32,
            tiles: *tiles as u32,
            rows: u32::from_be_bytes([*r0, *r1, *r2, *r3]),
            entries: u32::from_be_bytes([*e0, *e1, *e2, *e3]),
        };
        Some((header, tables))
    }

    fn check_format(self, size: usize) -> Result<Kind, Fault>
        ensures refused { result_err result ≡ format_fault self size }
        ensures kind { IfOk result (λ k. k ≡ kind_of self) }
    {
        Check::FileLength.refuse_if(self.following as usize + 4 != size, 0, Layer::File)?;
        Check::FileFormat.refuse_if(self.version != 1, 4, Layer::File)?;
        Ok(Kind::try_from(self.kind)?)
    }

    fn check_sizes(self) -> Result<(), Fault>
        ensures { result_err result ≡ sizes_fault self }
    {
        Size::Rows(self.rows).check(Layer::File)?;
        Size::Entries(self.entries).check(Layer::File)?;
        Size::Sweeps(self.sweeps).check(Layer::File)?;
        Size::Tiles(self.tiles).check(Layer::File)?;
        Size::SeedSweep(self.seed_sweep, self.sweeps).check(Layer::File)
    }

    // The bytes that each table takes, in the file's order.
    fn table_lengths(self, kind: Kind) -> [usize; 6]
        requires { kind ≡ kind_of self }
        ensures { result ≡ table_lengths_of self }
    {
        let rows = self.rows as usize;
        let entries = self.entries as usize;
        let width = kind.width();
        [
            (rows + 1) * 4,
            entries * 4,
            entries * width,
            rows * width,
            rows * width,
            rows,
        ]
    }

    // Format, sizes, and whether the tables fill a file of so many bytes.
    fn check(self, size: usize) -> Result<Kind, Fault>
        ensures refused { result_err result ≡ header_fault self size }
        ensures kind { IfOk result (λ k. k ≡ kind_of self) }
        ensures whole { OnOk result (at (offsets self) 6 ≡ size) }
    {
        let kind = self.check_format(size)?;
        self.check_sizes()?;
        let lengths = self.table_lengths(kind);
        let [starts, columns, coefficients, right_hand_side, vector, seed] = lengths;
        let end = HEADER + starts + columns + coefficients + right_hand_side + vector + seed;
        Check::FileLength.refuse_if(end != size, HEADER, Layer::File)?;
        Ok(kind)
    }

    // Each table, one after the other.
    fn hand_out(self, kind: Kind, tables: &[u8]) -> Case<'_>
        requires kind { kind ≡ kind_of self }
        requires whole { 17 + length tables.now ≡ at (offsets self) 6 }
        ensures { (file : List ℕ) → tables.now ≡ drop 17 file → Holds file self result }
    {
        let [starts, columns, coefficients, right_hand_side, vector, _] = self.table_lengths(kind);
        let tables = Part {
            offset: HEADER,
            bytes: tables,
        };
        let (starts, tables) = tables.split(starts);
        let (columns, tables) = tables.split(columns);
        let (coefficients, tables) = tables.split(coefficients);
        let (right_hand_side, tables) = tables.split(right_hand_side);
        let (vector, seed) = tables.split(vector);
        Case {
            kind,
            sweeps: self.sweeps,
            seed_sweep: self.seed_sweep,
            tiles: self.tiles,
            rows: self.rows,
            entries: self.entries,
            starts,
            columns,
            coefficients,
            right_hand_side,
            vector,
            seed,
        }
    }
}

impl Case<'_> {
    // The case that a file holds, or its first fault.
    pub fn read(bytes: &[u8]) -> Result<Case<'_>, Fault>
        ensures refused { result_err result ≡ reading_fault bytes.now }
        ensures holds { IfOk result (Holds bytes.now (header_of bytes.now)) }
    {
        let (header, tables) = Header::read(bytes).ok_or(TOO_SHORT)?;
        let kind = header.check(bytes.len())?;
        Ok(header.hand_out(kind, tables))
    }
}
