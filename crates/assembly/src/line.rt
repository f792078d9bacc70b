// The kinds of lines, by the words that they print; docs/LINES.md lists them. Numbers, and no enum: a kind is a `u16` of the lent slices.
pub const COMMENT: u16 = 0;

pub const FN_LABEL: u16 = 1;

pub const BLOCK_LABEL: u16 = 2;

pub const JMP_BLOCK: u16 = 3;

pub const PUSH_NAME: u16 = 4;

pub const CALL: u16 = 5;

pub const SYSCALL: u16 = 6;

pub const PUSH_0N: u16 = 7;

pub const PUSH: u16 = 8;

pub const GET_ARG: u16 = 9;

pub const GET_LOCAL: u16 = 10;

pub const SET_LOCAL: u16 = 11;

pub const CALL_FP: u16 = 12;

pub const SEL_FALSE: u16 = 13;

pub const SEL_DONE: u16 = 14;

pub const BR_FALSE: u16 = 15;

pub const SW_CASE: u16 = 16;

pub const JZ_SEL_FALSE: u16 = 17;

pub const JMP_SEL_DONE: u16 = 18;

pub const JZ_BR_FALSE: u16 = 19;

pub const JNZ_SW_CASE: u16 = 20;

pub const ADD_U32: u16 = 21;

pub const SUB_U32: u16 = 22;

pub const MUL_U32: u16 = 23;

pub const DIV_U32: u16 = 24;

pub const DIV_I32: u16 = 25;

pub const MOD_U32: u16 = 26;

pub const MOD_I32: u16 = 27;

pub const AND_U32: u16 = 28;

pub const OR_U32: u16 = 29;

pub const XOR_U32: u16 = 30;

pub const LSHIFT_U32: u16 = 31;

pub const RSHIFT_U32: u16 = 32;

pub const RSHIFT_I32: u16 = 33;

pub const EQ_U32: u16 = 34;

pub const NE_U32: u16 = 35;

pub const GT_U32: u16 = 36;

pub const GE_U32: u16 = 37;

pub const LT_U32: u16 = 38;

pub const LE_U32: u16 = 39;

pub const GT_I32: u16 = 40;

pub const GE_I32: u16 = 41;

pub const LT_I32: u16 = 42;

pub const LE_I32: u16 = 43;

pub const ADD_U64: u16 = 44;

pub const SUB_U64: u16 = 45;

pub const MUL_U64: u16 = 46;

pub const DIV_U64: u16 = 47;

pub const DIV_I64: u16 = 48;

pub const MOD_U64: u16 = 49;

pub const MOD_I64: u16 = 50;

pub const AND_U64: u16 = 51;

pub const OR_U64: u16 = 52;

pub const XOR_U64: u16 = 53;

pub const LSHIFT_U64: u16 = 54;

pub const RSHIFT_U64: u16 = 55;

pub const RSHIFT_I64: u16 = 56;

pub const EQ_U64: u16 = 57;

pub const NE_U64: u16 = 58;

pub const GT_U64: u16 = 59;

pub const GE_U64: u16 = 60;

pub const LT_U64: u16 = 61;

pub const LE_U64: u16 = 62;

pub const GT_I64: u16 = 63;

pub const GE_I64: u16 = 64;

pub const LT_I64: u16 = 65;

pub const LE_I64: u16 = 66;

pub const TRUNC_U8: u16 = 67;

pub const TRUNC_U16: u16 = 68;

pub const TRUNC_U32: u16 = 69;

pub const SX_I8_I32: u16 = 70;

pub const SX_I16_I32: u16 = 71;

pub const SX_I8_I64: u16 = 72;

pub const SX_I16_I64: u16 = 73;

pub const SX_I32_I64: u16 = 74;

pub const LOAD_U8: u16 = 75;

pub const LOAD_U16: u16 = 76;

pub const LOAD_U32: u16 = 77;

pub const LOAD_U64: u16 = 78;

pub const STORE_U8: u16 = 79;

pub const STORE_U16: u16 = 80;

pub const STORE_U32: u16 = 81;

pub const STORE_U64: u16 = 82;

pub const ATOMIC_LOAD_U64: u16 = 83;

pub const ATOMIC_STORE_U64: u16 = 84;

pub const ATOMIC_CAS_U64: u16 = 85;

pub const SYSCALL_MEMCMP: u16 = 86;

pub const DUP: u16 = 87;

pub const POP: u16 = 88;

pub const RET: u16 = 89;

pub const PANIC: u16 = 90;

pub const THREAD_GET: u16 = 91;

pub const THREAD_SET: u16 = 92;

pub const BLANK: u16 = 93;

// So many kinds there are.
pub const KINDS: u16 = 94;
