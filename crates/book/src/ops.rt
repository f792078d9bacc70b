// Operations, conversions and predicates, by the names and in the order of ast.rs. Each is the kind of an instruction's entry.
ghost use Rattle.std.specs.Prelude.{◌≡◌, ◌+◌, ◌<◌};
ghost use Rattle.book.specs.Kinds.{InstTag, inst_kind};
ghost use Rattle.book.specs.Ops.{bin_of, icmp_of, DecodesBin, DecodesConv, DecodesICmp};

use crate::entry;

// A kind that is none of those asked for.
#[derive(Clone, Copy, Debug, PartialEq, Eq)]
pub struct UnknownKind(pub u64);

// Operations.
#[derive(Clone, Copy, Debug, PartialEq, Eq)]
pub enum BinOp {
    Add,
    Sub,
    Mul,
    UDiv,
    SDiv,
    URem,
    SRem,
    And,
    Or,
    Xor,
    Shl,
    LShr,
    AShr,
}

impl BinOp {
    // Its number, from 0 on.
    pub fn number(self) -> u16
        ensures within { result < 13 }
        ensures value { 40 + result ≡ inst_kind (InstTag.bin (bin_of self)) }
    {
        self as u16
    }
}

impl TryFrom<u64> for BinOp {
    type Error = UnknownKind;

    ghost try_from_gives = { DecodesBin };

    fn try_from(kind: u64) -> Result<Self, UnknownKind> {
        match kind {
            entry::ADD => Ok(BinOp::Add),
            entry::SUB => Ok(BinOp::Sub),
            entry::MUL => Ok(BinOp::Mul),
            entry::UDIV => Ok(BinOp::UDiv),
            entry::SDIV => Ok(BinOp::SDiv),
            entry::UREM => Ok(BinOp::URem),
            entry::SREM => Ok(BinOp::SRem),
            entry::AND => Ok(BinOp::And),
            entry::OR => Ok(BinOp::Or),
            entry::XOR => Ok(BinOp::Xor),
            entry::SHL => Ok(BinOp::Shl),
            entry::LSHR => Ok(BinOp::LShr),
            entry::ASHR => Ok(BinOp::AShr),
            _ => Err(UnknownKind(kind)),
        }
    }
}

// Conversions.
#[derive(Clone, Copy, Debug, PartialEq, Eq)]
pub enum ConvOp {
    Trunc,
    ZExt,
    SExt,
    PtrToInt,
    IntToPtr,
    BitCast,
}

impl TryFrom<u64> for ConvOp {
    type Error = UnknownKind;

    ghost try_from_gives = { DecodesConv };

    fn try_from(kind: u64) -> Result<Self, UnknownKind> {
        match kind {
            entry::TRUNC => Ok(ConvOp::Trunc),
            entry::ZEXT => Ok(ConvOp::ZExt),
            entry::SEXT => Ok(ConvOp::SExt),
            entry::PTR_TO_INT => Ok(ConvOp::PtrToInt),
            entry::INT_TO_PTR => Ok(ConvOp::IntToPtr),
            entry::BIT_CAST => Ok(ConvOp::BitCast),
            _ => Err(UnknownKind(kind)),
        }
    }
}

// Predicates of a comparison.
#[derive(Clone, Copy, Debug, PartialEq, Eq)]
pub enum ICmpPred {
    Eq,
    Ne,
    Ugt,
    Uge,
    Ult,
    Ule,
    Sgt,
    Sge,
    Slt,
    Sle,
}

impl ICmpPred {
    // Its number, from 0 on.
    pub fn number(self) -> u16
        ensures within { result < 10 }
        ensures value { 60 + result ≡ inst_kind (InstTag.icmp (icmp_of self)) }
    {
        self as u16
    }
}

impl TryFrom<u64> for ICmpPred {
    type Error = UnknownKind;

    ghost try_from_gives = { DecodesICmp };

    fn try_from(kind: u64) -> Result<Self, UnknownKind> {
        match kind {
            entry::EQ => Ok(ICmpPred::Eq),
            entry::NE => Ok(ICmpPred::Ne),
            entry::UGT => Ok(ICmpPred::Ugt),
            entry::UGE => Ok(ICmpPred::Uge),
            entry::ULT => Ok(ICmpPred::Ult),
            entry::ULE => Ok(ICmpPred::Ule),
            entry::SGT => Ok(ICmpPred::Sgt),
            entry::SGE => Ok(ICmpPred::Sge),
            entry::SLT => Ok(ICmpPred::Slt),
            entry::SLE => Ok(ICmpPred::Sle),
            _ => Err(UnknownKind(kind)),
        }
    }
}
