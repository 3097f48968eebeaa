//! The words are those of the GNU assembler.
ghost use Rattle.rv_decode.specs.Ranges.{IsInRange};

use super::*;
use std::process::Abort;
use std::test::*;

#[test]
fn encodes_registers_and_fixed_words(rt: HostRuntime) {
    let x5 = Reg::new(5);
    let x6 = Reg::new(6);
    let x7 = Reg::new(7);
    // sub x7, x5, x6
    let sub = Instr::Op {
        op: RegOp::Sub,
        rd: x7,
        rs1: x5,
        rs2: x6,
    };
    encodes(&rt, sub, 0x4062_83b3);
    // amominu.w.aq x5, x6, (x7)
    let amominu = Instr::Amo {
        op: AmoOp::Amominu,
        rd: x5,
        rs1: x7,
        rs2: x6,
        aq: true,
        rl: false,
    };
    encodes(&rt, amominu, 0xc463_a2af);
    // fence rw, rw
    encodes(&rt, Instr::Fence { word: 0x0330_000f }, 0x0330_000f);
    // ebreak
    encodes(&rt, Instr::Ebreak, 0x0010_0073);
}

#[test]
fn encodes_immediates(rt: HostRuntime) {
    let x5 = Reg::new(5);
    let x6 = Reg::new(6);
    // lui x5, 0x12345
    encodes(
        &rt,
        Instr::Lui {
            rd: x5,
            imm: 0x12345,
        },
        0x1234_52b7,
    );
    // srai x5, x6, 31
    let srai = Instr::OpImm {
        op: ImmOp::Srai,
        rd: x5,
        rs1: x6,
        imm: 31,
    };
    encodes(&rt, srai, 0x41f3_5293);
    // lw x5, -4(x6)
    let lw = Instr::Load {
        op: LoadOp::Lw,
        rd: x5,
        rs1: x6,
        imm: -4,
    };
    encodes(&rt, lw, 0xffc3_2283);
    // sh x5, 34(x6)
    let sh = Instr::Store {
        op: StoreOp::Sh,
        rs1: x6,
        rs2: x5,
        imm: 34,
    };
    encodes(&rt, sh, 0x0253_1123);
}

#[test]
fn encodes_jumps(rt: HostRuntime) {
    let x0 = Reg::new(0);
    let x1 = Reg::new(1);
    // jal x1, .+2726
    let jal = Instr::Jal {
        rd: x1,
        offset: 2726,
    };
    encodes(&rt, jal, 0x2a70_00ef);
    // jal x0, .-252
    let jal_back = Instr::Jal {
        rd: x0,
        offset: -252,
    };
    encodes(&rt, jal_back, 0xf05f_f06f);
}

#[test]
fn encodes_branches(rt: HostRuntime) {
    let x5 = Reg::new(5);
    let x6 = Reg::new(6);
    // bge x5, x6, .+1364
    let bge = Instr::Branch {
        op: BranchOp::Bge,
        rs1: x5,
        rs2: x6,
        offset: 1364,
    };
    encodes(&rt, bge, 0x5462_da63);
    // bgeu x5, x6, .+2048
    let bgeu = Instr::Branch {
        op: BranchOp::Bgeu,
        rs1: x5,
        rs2: x6,
        offset: 2048,
    };
    encodes(&rt, bgeu, 0x0062_f0e3);
    // bne x5, x6, .-4096
    let bne = Instr::Branch {
        op: BranchOp::Bne,
        rs1: x5,
        rs2: x6,
        offset: -4096,
    };
    encodes(&rt, bne, 0x8062_9063);
}

fn encodes(rt: &impl Abort, instr: Instr, word: u32)
    requires { IsInRange instr }
{
    assert_eq!(rt; encode(instr), word);
}
