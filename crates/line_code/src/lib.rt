// Line codes (paper 01, 'Marks and line codes').
//
// In: the byte after a mark's F F F F 0 0. Out: how it reads: one of eight meanings, clean or with one of its eight bits repaired (and
// which), or damaged. Every byte has a reading, so nothing is refused here. Cost: a few operations, no loop.

#![tactic(auto)]

ghost use Rattle.std.specs.Prelude.{◌≡◌, ◌%◌, ◌<◌};
ghost use Rattle.line_code.specs.LineCode.{meaning_of, kind_meant, end_meant, clean_byte, reading_of, reading_numbered, repair_number, repair_numbered, kind_of, is_end, repair_of, is_bit, kind_number, kind_numbered};
ghost use Rattle.line_code.specs.Parts.{entry_at, RowHolds};
ghost use Rattle.line_code.specs.declared.Meaning.TheVariants.{Line};

// The line kinds, numbered 1 to 5.
#[derive(Clone, Copy)]
pub enum Kind {
    BL,
    BK,
    VL,
    SOF,
    EOF,
}

// What a clean code byte says: codes 0 to 7.
#[derive(Clone, Copy)]
pub enum Meaning {
    EndOfLine,
    Line(Kind),
    ReservedEC,
    ReservedF1,
}

// What was repaired of a code: nothing, or the bit of this number, 0 to 7. No option of a bit: `Says m Clean` reads in each definition and law as
// the paper has it, and `Says m None` would not.
#[derive(Clone, Copy)]
pub enum Repair {
    Clean,
    Bit(u8),
}

// How a code byte reads. No option of a pair: definitions and laws go by both parts, and their patterns can't take a pair apart.
#[derive(Clone, Copy)]
pub enum Reading {
    Says(Meaning, Repair),
    Damaged,
}

impl Kind {
    // The paper's number of the kind.
    pub fn number(self) -> u8
        ensures { result ≡ kind_number self }
    {
        match self {
            Kind::BL => 1,
            Kind::BK => 2,
            Kind::VL => 3,
            Kind::SOF => 4,
            Kind::EOF => 5,
        }
    }

    // The clean byte that starts a line of this kind.
    #[tactic(auto, unfolding(crate::specs::LineCode::clean_byte))]
    pub fn clean_byte(self) -> u8
        ensures { result ≡ clean_byte (Line self) }
    {
        match self {
            Kind::BL => 0x9D,
            Kind::BK => 0xAB,
            Kind::VL => 0xB6,
            Kind::SOF => 0xC7,
            Kind::EOF => 0xDA,
        }
    }

    // The kind with this number: none but 1 to 5 have one.
    #[tactic(auto, unfolding(crate::specs::LineCode::kind_numbered))]
    pub fn numbered(n: u8) -> Option<Kind>
        ensures { result ≡ kind_numbered n }
    {
        match n {
            1 => Some(Kind::BL),
            2 => Some(Kind::BK),
            3 => Some(Kind::VL),
            4 => Some(Kind::SOF),
            5 => Some(Kind::EOF),
            _ => None,
        }
    }
}

impl Meaning {
    // The clean byte that says this.
    pub fn clean_byte(self) -> u8
        ensures { result ≡ clean_byte self }
    {
        match self {
            Meaning::EndOfLine => 0x80,
            Meaning::Line(k) => k.clean_byte(),
            Meaning::ReservedEC => 0xEC,
            Meaning::ReservedF1 => 0xF1,
        }
    }
}

impl Repair {
    // Whether a bit was repaired.
    pub fn is_bit(self) -> bool
        ensures { result ≡ is_bit self }
    {
        matches!(self, Repair::Bit(_))
    }

    // The repair as a number: 0 for none, else one more than the bit's.
    pub fn number(self) -> u16
        ensures { result ≡ repair_number self }
    {
        match self {
            Repair::Clean => 0,
            Repair::Bit(i) => i as u16 + 1,
        }
    }
}

impl Reading {
    // The line kind, of a clean or repaired code.
    pub fn kind(self) -> Option<Kind>
        ensures { result ≡ kind_of self }
    {
        match self {
            Reading::Says(m, _) => kind_of(m),
            Reading::Damaged => None,
        }
    }

    // Whether it is end of line, clean or repaired.
    pub fn is_end(self) -> bool
        ensures { result ≡ is_end self }
    {
        match self {
            Reading::Says(m, _) => says_end(m),
            Reading::Damaged => false,
        }
    }

    // What was repaired: of a damaged code nothing.
    pub fn repair(self) -> Repair
        ensures { result ≡ repair_of self }
    {
        match self {
            Reading::Says(_, repair) => repair,
            Reading::Damaged => Repair::Clean,
        }
    }
}

// How a code byte reads: looked up.
pub fn read(byte: u8) -> Reading
    ensures { result ≡ reading_of byte }
{
    let place = byte % 8;
    let entries = row(byte - place);
    reading_numbered(entry(entries, place))
}

// The table: the readings of all 256 code bytes by number, eight to a row, which is named by its first byte; the last row is F8's. Of an entry the
// low digit is the code, 0 to 7, and the high digit the repair's number, 0 for a clean code; 08 is damaged. The rows of a `match` are compiled to
// constant data; an array would be made anew at each lookup.
fn row(first: u8) -> u64
    requires { first % 8 ≡ 0 }
    ensures { RowHolds first result }
{
    match first {
        0x00 => 0x80_08_08_08_08_08_08_08,
        0x08 => 0x08_08_08_08_08_08_08_08,
        0x10 => 0x08_08_08_08_08_08_08_08,
        0x18 => 0x08_08_08_08_08_81_08_08,
        0x20 => 0x08_08_08_08_08_08_08_08,
        0x28 => 0x08_08_08_82_08_08_08_08,
        0x30 => 0x08_08_08_08_08_08_83_08,
        0x38 => 0x08_08_08_08_08_08_08_08,
        0x40 => 0x08_08_08_08_08_08_08_84,
        0x48 => 0x08_08_08_08_08_08_08_08,
        0x50 => 0x08_08_08_08_08_08_08_08,
        0x58 => 0x08_08_85_08_08_08_08_08,
        0x60 => 0x08_08_08_08_08_08_08_08,
        0x68 => 0x08_08_08_08_86_08_08_08,
        0x70 => 0x08_87_08_08_08_08_08_08,
        0x78 => 0x08_08_08_08_08_08_08_08,
        0x80 => 0x00_10_20_08_30_08_08_74,
        0x88 => 0x40_08_08_62_08_51_08_08,
        0x90 => 0x50_08_08_08_08_41_63_08,
        0x98 => 0x08_31_75_08_11_01_08_21,
        0xA0 => 0x60_08_08_42_08_08_53_08,
        0xA8 => 0x08_22_12_02_76_08_08_32,
        0xB0 => 0x08_77_33_08_23_08_03_13,
        0xB8 => 0x08_08_08_52_08_61_43_08,
        0xC0 => 0x70_08_08_34_08_24_14_04,
        0xC8 => 0x08_08_55_08_66_08_08_44,
        0xD0 => 0x08_67_45_08_08_08_08_54,
        0xD8 => 0x25_08_05_15_08_71_35_08,
        0xE0 => 0x08_57_08_08_46_08_08_64,
        0xE8 => 0x36_08_08_72_06_16_26_08,
        0xF0 => 0x17_07_08_27_08_37_73_08,
        _ => 0x08_47_65_08_56_08_08_08,
    }
}

// The entry at a place of a row, counted from its first.
fn entry(row: u64, place: u8) -> u8
    requires { place < 8 }
    ensures { result ≡ entry_at row place }
{
    ((row >> (8 * (7 - place))) % 256) as u8
}

// The reading with a number.
#[tactic(auto, unfolding(crate::specs::LineCode::reading_numbered))]
fn reading_numbered(n: u8) -> Reading
    ensures { result ≡ reading_numbered n }
{
    let code = n % 16;
    if code < 8 {
        Reading::Says(meaning_of(code), repair_numbered(n / 16))
    } else {
        Reading::Damaged
    }
}

// The repair with a number.
#[tactic(auto, unfolding(crate::specs::LineCode::repair_numbered))]
fn repair_numbered(n: u8) -> Repair
    ensures { result ≡ repair_numbered n }
{
    match n {
        0 => Repair::Clean,
        _ => Repair::Bit(n - 1),
    }
}

// The meaning with a code number.
#[tactic(auto, unfolding(crate::specs::LineCode::meaning_of, crate::specs::LineCode::kind_numbered, crate::specs::LineCode::reserved_of))]
fn meaning_of(code: u8) -> Meaning
    ensures { result ≡ meaning_of code }
{
    match code {
        0 => Meaning::EndOfLine,
        1 => Meaning::Line(Kind::BL),
        2 => Meaning::Line(Kind::BK),
        3 => Meaning::Line(Kind::VL),
        4 => Meaning::Line(Kind::SOF),
        5 => Meaning::Line(Kind::EOF),
        6 => Meaning::ReservedEC,
        _ => Meaning::ReservedF1,
    }
}

fn kind_of(m: Meaning) -> Option<Kind>
    ensures { result ≡ kind_meant m }
{
    match m {
        Meaning::Line(k) => Some(k),
        Meaning::EndOfLine | Meaning::ReservedEC | Meaning::ReservedF1 => None,
    }
}

fn says_end(m: Meaning) -> bool
    ensures { result ≡ end_meant m }
{
    matches!(m, Meaning::EndOfLine)
}
