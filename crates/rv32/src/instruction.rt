//! The instructions.

use crate::register::Register;

/// What two values are combined by (section 2.4).
#[derive(Clone, Copy, Debug)]
pub enum Operation {
    Add,
    Subtract,
    ShiftLeft,
    SetLess,
    SetLessUnsigned,
    Xor,
    ShiftRight,
    ShiftRightSigned,
    Or,
    And,
}

/// When a branch is taken (section 2.5).
#[derive(Clone, Copy, Debug)]
pub enum Comparison {
    Equal,
    NotEqual,
    Less,
    AtLeast,
    LessUnsigned,
    AtLeastUnsigned,
}

/// How many bytes are loaded or stored (section 2.6).
#[derive(Clone, Copy, Debug)]
pub enum Size {
    Byte,
    Half,
    Word,
}

/// An instruction. Offsets and other immediate values are extended by their sign to 32 bits.
#[derive(Clone, Copy, Debug)]
pub enum Instruction {
    /// `LUI`.
    LoadUpper {
        to: Register,
        value: u32,
    },
    /// `AUIPC`.
    AddUpper {
        to: Register,
        value: u32,
    },
    /// `JAL`.
    Jump {
        link: Register,
        offset: u32,
    },
    /// `JALR`.
    JumpTo {
        link: Register,
        base: Register,
        offset: u32,
    },
    /// `BEQ`, `BNE`, `BLT`, `BGE`, `BLTU` and `BGEU`.
    Branch {
        when: Comparison,
        one: Register,
        other: Register,
        offset: u32,
    },
    /// `LB`, `LH` and `LW`.
    Load {
        size: Size,
        to: Register,
        base: Register,
        offset: u32,
    },
    /// `LBU` and `LHU`.
    LoadUnsigned {
        size: Size,
        to: Register,
        base: Register,
        offset: u32,
    },
    /// `SB`, `SH` and `SW`.
    Store {
        size: Size,
        from: Register,
        base: Register,
        offset: u32,
    },
    /// `ADDI`, `SLTI`, `SLTIU`, `XORI`, `ORI`, `ANDI`, `SLLI`, `SRLI` and `SRAI`.
    OperateValue {
        by: Operation,
        to: Register,
        one: Register,
        value: u32,
    },
    /// `ADD`, `SUB`, `SLL`, `SLT`, `SLTU`, `XOR`, `SRL`, `SRA`, `OR` and `AND`.
    Operate {
        by: Operation,
        to: Register,
        one: Register,
        other: Register,
    },
    /// `FENCE`, which does nothing here.
    Fence,
    /// `ECALL`.
    Call,
    /// `EBREAK`.
    Break,
}
