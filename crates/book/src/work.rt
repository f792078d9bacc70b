// The work slice: eight words for each name, in the order of the names, and 64 behind them. A word has its number with 1 added, 0 for none.
pub const WORDS: usize = 8;

// The words of a name, counted from its first: its parameter, its slot, its block, its fixed place, its struct's body, how a global of
// that name is called, a word of the table of fields, its measurement.
pub const PARAM: usize = 0;

pub const SLOT: usize = 1;

pub const BLOCK: usize = 2;

pub const PLACE: usize = 3;

pub const BODY: usize = 4;

pub const MARK: usize = 5;

pub const FACT: usize = 6;

pub const MEASURED: usize = 7;

// How a global is called, by its word MARK: not at all, as a function that is defined here, as a syscall, as memcmp.
pub const CALL_NONE: u64 = 0;

pub const CALL_DEFINED: u64 = 1;

pub const CALL_SYSCALL: u64 = 2;

pub const CALL_MEMCMP: u64 = 3;

// So many ways there are; this is added where the name contains `.with.overflow.`.
pub const OVERFLOW: u64 = 4;

// The words behind those of the names.
pub const TERMS: usize = 64;
