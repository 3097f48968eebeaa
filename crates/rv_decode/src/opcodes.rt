//! The major opcodes.

/// Loads.
pub const LOAD: u32 = 0b000_0011;

/// Fences.
pub const MISC_MEM: u32 = 0b000_1111;

/// Operations with an immediate.
pub const OP_IMM: u32 = 0b001_0011;

/// `auipc`.
pub const AUIPC: u32 = 0b001_0111;

/// Stores.
pub const STORE: u32 = 0b010_0011;

/// AMOs.
pub const AMO: u32 = 0b010_1111;

/// Operations on registers.
pub const OP: u32 = 0b011_0011;

/// `lui`.
pub const LUI: u32 = 0b011_0111;

/// Branches.
pub const BRANCH: u32 = 0b110_0011;

/// `jalr`.
pub const JALR: u32 = 0b110_0111;

/// `jal`.
pub const JAL: u32 = 0b110_1111;

/// `ecall` and `ebreak`.
pub const SYSTEM: u32 = 0b111_0011;
