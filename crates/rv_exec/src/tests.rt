//! Short vectors, worked out from the RISC-V Unprivileged ISA.
ghost use Rattle.std.specs.Prelude.{◌≡◌, ◌%◌};
ghost use Rattle.pmsi_model.specs.Access.{width_of};
ghost use Rattle.pmsi_model.specs.Instruction.{HasRow};

use crate::operations::{is_taken, operate};
use crate::{Applied, Effect, Regs, apply, exec};
use pmsi_model::{
    Access, AccessOp, AmoOp, BranchOp, Halt, ImmOp, Instr, LoadOp, Reg, RegOp, StoreOp,
};
use std::process::Abort;

const LEAST: u32 = 0x8000_0000;

#[test]
fn operates_at_the_edges(rt: HostRuntime) {
    for (op, a, b, want) in [
        (RegOp::Add, u32::MAX, 1, 0),
        (RegOp::Sub, 0, 1, u32::MAX),
        (RegOp::Slt, LEAST, 1, 1),
        (RegOp::Slt, 1, LEAST, 0),
        (RegOp::Sltu, LEAST, 1, 0),
        (RegOp::Sltu, 1, LEAST, 1),
        (RegOp::Sll, 3, 0, 3),
        (RegOp::Sll, 3, 31, LEAST),
        (RegOp::Sll, 3, 32, 3),
        (RegOp::Srl, LEAST, 0, LEAST),
        (RegOp::Srl, LEAST, 31, 1),
        (RegOp::Srl, LEAST, 32, LEAST),
        (RegOp::Sra, LEAST, 0, LEAST),
        (RegOp::Sra, LEAST, 31, u32::MAX),
        (RegOp::Sra, LEAST, 32, LEAST),
        (RegOp::Sra, 0x4000_0000, 30, 1),
        (RegOp::Xor, 12, 10, 6),
        (RegOp::Or, 12, 10, 14),
        (RegOp::And, 12, 10, 8),
    ] {
        assert_eq!(rt; operate(op, a, b), want, "{op:?} of {a} and {b}");
    }
    for (op, if_equal, if_least_and_one) in [
        (BranchOp::Beq, true, false),
        (BranchOp::Bne, false, true),
        (BranchOp::Blt, false, true),
        (BranchOp::Bge, true, false),
        (BranchOp::Bltu, false, false),
        (BranchOp::Bgeu, true, true),
    ] {
        assert_eq!(rt; is_taken(op, LEAST, LEAST), if_equal, "{op:?}");
        assert_eq!(rt; is_taken(op, LEAST, 1), if_least_and_one, "{op:?}");
    }
}

/// Does an access that names x0.
fn applied(op: AccessOp, address: u32, operand: u32, word: u32) -> Applied
    requires { address % width_of op ≡ 0 }
{
    let rd = Reg::new(0);
    apply(
        Access {
            op,
            rd,
            address,
            operand,
        },
        word,
    )
}

#[test]
fn loads_each_lane(rt: HostRuntime) {
    let word = 0x8081_7fff;
    let bytes = [0xff, 0x7f, 0x81, 0x80];
    let signed_bytes = [u32::MAX, 0x7f, 0xffff_ff81, 0xffff_ff80];
    for lane in 0..4u32 {
        let unsigned = applied(AccessOp::Load(LoadOp::Lbu), lane, 0, word);
        let signed = applied(AccessOp::Load(LoadOp::Lb), lane, 0, word);
        assert_eq!(rt; unsigned.rd_value, bytes[lane as usize]);
        assert_eq!(rt; signed.rd_value, signed_bytes[lane as usize]);
    }
    let low = applied(AccessOp::Load(LoadOp::Lh), 16, 0, word);
    let high = applied(AccessOp::Load(LoadOp::Lh), 18, 0, word);
    let high_unsigned = applied(AccessOp::Load(LoadOp::Lhu), 18, 0, word);
    let whole = applied(AccessOp::Load(LoadOp::Lw), 16, 0, word);
    assert_eq!(rt; low.rd_value, 0x7fff);
    assert_eq!(rt; high.rd_value, 0xffff_8081);
    assert_eq!(rt; high_unsigned.rd_value, 0x8081);
    assert_eq!(rt; whole.rd_value, word);
    assert_eq!(rt; high.new_word, word);
}

#[test]
fn stores_each_lane(rt: HostRuntime) {
    let word = 0x1122_3344;
    let operand = 0x5566_77aa;
    let by_bytes = [0x1122_33aa, 0x1122_aa44, 0x11aa_3344, 0xaa22_3344];
    for lane in 0..4u32 {
        let stored = applied(AccessOp::Store(StoreOp::Sb), lane, operand, word);
        assert_eq!(rt; stored.new_word, by_bytes[lane as usize]);
    }
    let low = applied(AccessOp::Store(StoreOp::Sh), 16, operand, word);
    let high = applied(AccessOp::Store(StoreOp::Sh), 18, operand, word);
    let whole = applied(AccessOp::Store(StoreOp::Sw), 16, operand, word);
    assert_eq!(rt; low.new_word, 0x1122_77aa);
    assert_eq!(rt; high.new_word, 0x77aa_3344);
    assert_eq!(rt; whole.new_word, operand);
    assert_eq!(rt; whole.rd_value, 0);
}

#[test]
fn does_atomic_operations(rt: HostRuntime) {
    for (op, want) in [
        (AmoOp::Amoadd, 0),
        (AmoOp::Amoswap, 1),
        (AmoOp::Amoxor, 0xffff_fffe),
        (AmoOp::Amoor, u32::MAX),
        (AmoOp::Amoand, 1),
        (AmoOp::Amomin, u32::MAX),
        (AmoOp::Amomax, 1),
        (AmoOp::Amominu, 1),
        (AmoOp::Amomaxu, u32::MAX),
    ] {
        let done = applied(AccessOp::Amo(op), 8, 1, u32::MAX);
        assert_eq!(rt; done.new_word, want, "{op:?}");
        assert_eq!(rt; done.rd_value, u32::MAX, "{op:?}");
    }
}

/// Registers of core 0 of 1, with these values in x1 and x2.
fn regs_with(a: u32, b: u32) -> Regs {
    let mut regs = Regs::start(0, 1);
    regs.set(Reg::new(1), a);
    regs.set(Reg::new(2), b);
    regs
}

/// Executes an instruction with a memory of 64 bytes.
fn executed(instr: Instr, regs: &mut Regs, pc: u32) -> Effect
    requires { HasRow instr }
{
    exec(instr, regs, pc, 64)
}

fn assert_is(rt: &impl Abort, effect: Effect, want: Effect) {
    assert_eq!(rt; effect, want);
}

fn assert_holds(rt: &impl Abort, regs: &Regs, r: Reg, want: u32) {
    assert_eq!(rt; regs.get(r), want, "x{}", r.index());
}

#[test]
fn starts_with_its_number(rt: HostRuntime) {
    let regs = Regs::start(3, 4);
    assert_eq!(rt; &regs.as_slice()[9..13], [0, 3, 4, 0].as_slice());
}

#[test]
fn writes_and_goes_on(rt: HostRuntime) {
    let x0 = Reg::new(0);
    let x1 = Reg::new(1);
    let x2 = Reg::new(2);
    let mut regs = regs_with(5, 6);
    let upper = executed(
        Instr::Lui {
            rd: x2,
            imm: 0xf_ffff,
        },
        &mut regs,
        0xffff_fffc,
    );
    assert_is(&rt, upper, Effect::Next(0));
    assert_holds(&rt, &regs, x2, 0xffff_f000);
    let added = executed(
        Instr::Auipc {
            rd: x2,
            imm: 0xf_ffff,
        },
        &mut regs,
        0x2000,
    );
    assert_is(&rt, added, Effect::Next(0x2004));
    assert_holds(&rt, &regs, x2, 0x1000);
    let below = executed(
        Instr::OpImm {
            op: ImmOp::Sltiu,
            rd: x2,
            rs1: x1,
            imm: -1,
        },
        &mut regs,
        0,
    );
    assert_is(&rt, below, Effect::Next(4));
    assert_holds(&rt, &regs, x2, 1);
    let lost = executed(
        Instr::Op {
            op: RegOp::Add,
            rd: x0,
            rs1: x1,
            rs2: x2,
        },
        &mut regs,
        4,
    );
    assert_is(&rt, lost, Effect::Next(8));
    assert_holds(&rt, &regs, x0, 0);
    assert_holds(&rt, &regs, x1, 5);
}

#[test]
fn jumps_and_halts(rt: HostRuntime) {
    let x1 = Reg::new(1);
    let x2 = Reg::new(2);
    let mut regs = regs_with(0x100, LEAST);
    let back = executed(Instr::Jal { rd: x2, offset: -4 }, &mut regs, 8);
    assert_is(&rt, back, Effect::Next(4));
    assert_holds(&rt, &regs, x2, 12);
    let far = executed(
        Instr::Jalr {
            rd: x1,
            rs1: x1,
            imm: 1,
        },
        &mut regs,
        0x40,
    );
    assert_is(&rt, far, Effect::Next(0x100));
    assert_holds(&rt, &regs, x1, 0x44);
    let off = executed(
        Instr::Jalr {
            rd: x1,
            rs1: x1,
            imm: 3,
        },
        &mut regs,
        0,
    );
    assert_is(&rt, off, Effect::Stop(Halt::JumpMisaligned(0x46)));
    assert_holds(&rt, &regs, x1, 0x44);
    let taken = executed(
        Instr::Branch {
            op: BranchOp::Bltu,
            rs1: x2,
            rs2: x1,
            offset: 8,
        },
        &mut regs,
        0,
    );
    assert_is(&rt, taken, Effect::Next(8));
    let exit = executed(Instr::Ecall, &mut regs, 0);
    assert_is(&rt, exit, Effect::Stop(Halt::Exit(0)));
}

#[test]
fn asks_for_accesses(rt: HostRuntime) {
    let x0 = Reg::new(0);
    let x1 = Reg::new(1);
    let x2 = Reg::new(2);
    let mut regs = regs_with(64, 7);
    let both = executed(
        Instr::Load {
            op: LoadOp::Lw,
            rd: x2,
            rs1: x1,
            imm: 2,
        },
        &mut regs,
        0,
    );
    assert_is(&rt, both, Effect::Stop(Halt::Misaligned(66)));
    let out = executed(
        Instr::Load {
            op: LoadOp::Lw,
            rd: x2,
            rs1: x1,
            imm: 0,
        },
        &mut regs,
        0,
    );
    assert_is(&rt, out, Effect::Stop(Halt::Range(64)));
    let last = executed(
        Instr::Store {
            op: StoreOp::Sb,
            rs1: x1,
            rs2: x2,
            imm: -1,
        },
        &mut regs,
        0,
    );
    let asked = Access {
        op: AccessOp::Store(StoreOp::Sb),
        rd: x0,
        address: 63,
        operand: 7,
    };
    assert_is(&rt, last, Effect::Memory(asked));
    let swap = executed(
        Instr::Amo {
            op: AmoOp::Amoswap,
            rd: x2,
            rs1: x0,
            rs2: x2,
            aq: false,
            rl: false,
        },
        &mut regs,
        0,
    );
    let asked = Access {
        op: AccessOp::Amo(AmoOp::Amoswap),
        rd: x2,
        address: 0,
        operand: 7,
    };
    assert_is(&rt, swap, Effect::Memory(asked));
}
