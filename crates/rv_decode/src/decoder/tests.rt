use super::decode;
use pmsi_model::{AmoOp, BranchOp, ImmOp, Instr, LoadOp, Reg, RegOp, StoreOp};

/// Words as the GNU assembler writes them.
#[test]
fn decodes_words_of_each_format(rt: HostRuntime) {
    let [x0, x5, x6, x7] = [Reg::new(0), Reg::new(5), Reg::new(6), Reg::new(7)];
    for (word, instr) in [
        // lui x5, 0x12345
        (
            0x1234_52b7,
            Instr::Lui {
                rd: x5,
                imm: 0x12345,
            },
        ),
        // addi x5, x5, -1
        (
            0xfff2_8293,
            Instr::OpImm {
                op: ImmOp::Addi,
                rd: x5,
                rs1: x5,
                imm: -1,
            },
        ),
        // srai x5, x6, 31
        (
            0x41f3_5293,
            Instr::OpImm {
                op: ImmOp::Srai,
                rd: x5,
                rs1: x6,
                imm: 31,
            },
        ),
        // sltu x7, x5, x6
        (
            0x0062_b3b3,
            Instr::Op {
                op: RegOp::Sltu,
                rd: x7,
                rs1: x5,
                rs2: x6,
            },
        ),
        // jal x0, .-252
        (
            0xf05f_f06f,
            Instr::Jal {
                rd: x0,
                offset: -252,
            },
        ),
        // bne x5, x6, .-4096
        (
            0x8062_9063,
            Instr::Branch {
                op: BranchOp::Bne,
                rs1: x5,
                rs2: x6,
                offset: -4096,
            },
        ),
        // bgeu x5, x6, .+2048
        (
            0x0062_f0e3,
            Instr::Branch {
                op: BranchOp::Bgeu,
                rs1: x5,
                rs2: x6,
                offset: 2048,
            },
        ),
        // lh x5, 2047(x6)
        (
            0x7ff3_1283,
            Instr::Load {
                op: LoadOp::Lh,
                rd: x5,
                rs1: x6,
                imm: 2047,
            },
        ),
        // sw x5, -4(x6)
        (
            0xfe53_2e23,
            Instr::Store {
                op: StoreOp::Sw,
                rs1: x6,
                rs2: x5,
                imm: -4,
            },
        ),
        // fence rw, rw
        (0x0330_000f, Instr::Fence { word: 0x0330_000f }),
        // ebreak
        (0x0010_0073, Instr::Ebreak),
        // amominu.w.aq x5, x6, (x7)
        (
            0xc463_a2af,
            Instr::Amo {
                op: AmoOp::Amominu,
                rd: x5,
                rs1: x7,
                rs2: x6,
                aq: true,
                rl: false,
            },
        ),
    ] {
        assert_eq!(rt; decode(word), Some(instr), "at {word}");
    }
}

/// Words of other extensions.
#[test]
fn decodes_no_other_words(rt: HostRuntime) {
    // fence.i; lr.w x5, (x6); mul x5, x6, x7; csrrw x5, mstatus, x6; mret; ld x5, 0(x6)
    for word in [
        0x0000_100f,
        0x1003_22af,
        0x0273_02b3,
        0x3003_12f3,
        0x3020_0073,
        0x0003_3283,
    ] {
        assert_eq!(rt; decode(word), None, "at {word}");
    }
}
