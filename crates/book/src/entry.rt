// The kinds of a book's entries (document 01, "The book"), by the names that ast.rs has.

// What closes a list.
pub const END: u64 = 0;

// Marks, named structs, functions, parameters, blocks.
pub const DEFINED: u64 = 1;

pub const RESERVED: u64 = 2;

pub const NAMED_STRUCT: u64 = 3;

pub const OPAQUE: u64 = 4;

pub const FUNCTION: u64 = 5;

pub const PARAM: u64 = 6;

pub const BLOCK: u64 = 7;

// Types.
pub const VOID: u64 = 10;

pub const INT: u64 = 11;

pub const PTR: u64 = 12;

pub const ARRAY: u64 = 13;

pub const PACKED_ARRAY: u64 = 14;

pub const NAMED: u64 = 15;

pub const STRUCT: u64 = 16;

pub const PACKED_STRUCT: u64 = 17;

pub const FUNC: u64 = 18;

pub const LABEL: u64 = 19;

pub const METADATA: u64 = 20;

// What is absent, a number, a block's name.
pub const ABSENT: u64 = 21;

pub const NUMBER: u64 = 22;

pub const BLOCK_NAME: u64 = 23;

// Values.
pub const LOCAL: u64 = 30;

pub const GLOBAL: u64 = 31;

pub const INTEGER: u64 = 32;

pub const NULL: u64 = 33;

pub const UNDEF: u64 = 34;

pub const POISON: u64 = 35;

pub const ZERO_INIT: u64 = 36;

pub const OTHER: u64 = 37;

// Instructions: BinOp, ConvOp and ICmpPred each in its order, and the others.
pub const ADD: u64 = 40;

pub const SUB: u64 = 41;

pub const MUL: u64 = 42;

pub const UDIV: u64 = 43;

pub const SDIV: u64 = 44;

pub const UREM: u64 = 45;

pub const SREM: u64 = 46;

pub const AND: u64 = 47;

pub const OR: u64 = 48;

pub const XOR: u64 = 49;

pub const SHL: u64 = 50;

pub const LSHR: u64 = 51;

pub const ASHR: u64 = 52;

pub const TRUNC: u64 = 53;

pub const ZEXT: u64 = 54;

pub const SEXT: u64 = 55;

pub const PTR_TO_INT: u64 = 56;

pub const INT_TO_PTR: u64 = 57;

pub const BIT_CAST: u64 = 58;

pub const EQ: u64 = 60;

pub const NE: u64 = 61;

pub const UGT: u64 = 62;

pub const UGE: u64 = 63;

pub const ULT: u64 = 64;

pub const ULE: u64 = 65;

pub const SGT: u64 = 66;

pub const SGE: u64 = 67;

pub const SLT: u64 = 68;

pub const SLE: u64 = 69;

pub const SELECT: u64 = 70;

pub const LOAD: u64 = 71;

pub const STORE: u64 = 72;

pub const ALLOCA: u64 = 73;

pub const GET_ELEMENT_PTR: u64 = 74;

pub const PHI: u64 = 75;

pub const CALL: u64 = 76;

pub const FREEZE: u64 = 77;

pub const ATOMIC_LOAD: u64 = 78;

pub const ATOMIC_STORE: u64 = 79;

pub const CMPXCHG: u64 = 80;

pub const EXTRACT_VALUE: u64 = 81;

pub const FENCE: u64 = 82;

// Terminators.
pub const RET: u64 = 90;

pub const BR: u64 = 91;

pub const SWITCH: u64 = 92;

pub const UNREACHABLE: u64 = 93;
