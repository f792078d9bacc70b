// The refusals by document 01's numbers.
ghost use Rattle.std.specs.Prelude.{◌≡◌};
ghost use Rattle.book.specs.Refusal.{number_of, Numbered};

// Why a call was refused: the check's four first, then the translator's and the printer's.
#[derive(Clone, Copy, Debug, PartialEq, Eq)]
pub enum Refusal {
    // The book or the label counter breaks the rules of a book.
    Book = 1,
    // The names or their count break the rules of names.
    Names = 2,
    // A value that a book has no kind for, or a call of an intrinsic or a reserved name.
    Forbidden = 3,
    // The work slice is too short.
    Work = 4,
    // A result name is missing where one is needed.
    NoResultName = 5,
    // A measured type is opaque, undefined, or a function, label or metadata type.
    NoSize = 6,
    // A type above 2^24 bytes or 64 levels, or a frame above 2^31 bytes.
    TooLarge = 7,
    // A function has over 65,535 slots.
    TooManySlots = 8,
    // A type is neither an integer nor a pointer.
    NotInteger = 9,
    // An operand is a local that nothing defines.
    UnknownLocal = 10,
    // A load or store is not of 1, 2, 4 or 8 bytes.
    AccessSize = 11,
    // An atomic type is not of 8 bytes.
    AtomicSize = 12,
    // A sign extension that there is no line for.
    SignExtension = 13,
    // A getelementptr steps into no aggregate, or its field is not constant or out of range.
    GepStep = 14,
    // A call with over 255 arguments, or of something that can't be called.
    Call = 15,
    // An extractvalue of no local, of a name without slot, or of an index above 1.
    ExtractValue = 16,
    // A branch to a block that isn't there.
    UnknownBlock = 17,
    // A phi without a value for the block that the edge leaves.
    PhiLacksPredecessor = 18,
    // A condition without a false target.
    NoFalseTarget = 19,
    // Lines or a text don't fit the lent slices.
    NoRoom = 20,
    // An unknown line kind, or an operand that its kind doesn't allow.
    BadLine = 21,
}

impl Refusal {
    // The number that document 01 gives it.
    pub fn number(self) -> u64
        ensures { result ≡ number_of self }
    {
        self as u64
    }
}

// A number that document 01 gives no refusal.
#[derive(Clone, Copy, Debug, PartialEq, Eq)]
pub struct UnknownRefusal(pub u64);

impl TryFrom<u64> for Refusal {
    type Error = UnknownRefusal;

    ghost try_from_gives = { Numbered };

    fn try_from(number: u64) -> Result<Self, UnknownRefusal> {
        match number {
            1 => Ok(Refusal::Book),
            2 => Ok(Refusal::Names),
            3 => Ok(Refusal::Forbidden),
            4 => Ok(Refusal::Work),
            5 => Ok(Refusal::NoResultName),
            6 => Ok(Refusal::NoSize),
            7 => Ok(Refusal::TooLarge),
            8 => Ok(Refusal::TooManySlots),
            9 => Ok(Refusal::NotInteger),
            10 => Ok(Refusal::UnknownLocal),
            11 => Ok(Refusal::AccessSize),
            12 => Ok(Refusal::AtomicSize),
            13 => Ok(Refusal::SignExtension),
            14 => Ok(Refusal::GepStep),
            15 => Ok(Refusal::Call),
            16 => Ok(Refusal::ExtractValue),
            17 => Ok(Refusal::UnknownBlock),
            18 => Ok(Refusal::PhiLacksPredecessor),
            19 => Ok(Refusal::NoFalseTarget),
            20 => Ok(Refusal::NoRoom),
            21 => Ok(Refusal::BadLine),
            _ => Err(UnknownRefusal(number)),
        }
    }
}
