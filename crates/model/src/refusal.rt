// Why a call is refused: the first check that fails. The checks are numbered, and C, the programs and the books of
// numbers say the number.
ghost use Rattle.std.specs.Prelude.{◌≡◌};
ghost use Rattle.model.specs.Refusals.{number_of};

#[derive(Clone, Copy, PartialEq, Eq)]
pub enum Refusal {
    // The book has under 16 bytes.
    ShortBook = 1,
    // The trailer's length is not the book's.
    BookLength = 2,
    // n is not 1 to 128, or m is over 120.
    Size = 3,
    // An offset or the length is not what n and m give.
    BookLayout = 4,
    // A lent buffer has not exactly the length needed.
    BufferLength = 5,
    // A bound is outside its range.
    Bound = 6,
    // A lower bound is above its upper in a box that is not empty.
    CrossedBounds = 7,
    // A coefficient is outside its range.
    Coefficient = 8,
    // A right side is outside its range.
    RightSide = 9,
    // A table byte is neither 0 nor 1.
    TableByte = 10,
    // The kind of a call is not 1 to 5.
    CallKind = 11,
    // The row is not below m.
    Row = 12,
    // The variable is not below n.
    Variable = 13,
    // In a box that is not empty, the variable is not free binary.
    VariableNotFree = 14,
    // The budget is not 1 to 8,388,481.
    Budget = 15,
    // A kind byte of a row is above 1.
    RowKind = 16,
    // An = row is to be written into a book of the first edition.
    EqualityRow = 17,
    // A kind of call that a list no longer takes.
    RetiredKind = 18,
    // Of a sparse book: a column is not below n, or not above the one before.
    Column = 19,
    // Of a sparse book: an entry's coefficient is 0.
    ZeroCoefficient = 20,
    // A place of the tie list is above 2n.
    TiePlace = 21,
    // The count of proposals is not 1 to 64.
    ProposalCount = 22,
    // A variable's u − l is over 4,096.
    VariableTooWide = 23,
}

impl Refusal {
    // The check's number.
    pub fn number(self) -> u32
        ensures { result ≡ number_of self }
    {
        self as u32
    }
}
