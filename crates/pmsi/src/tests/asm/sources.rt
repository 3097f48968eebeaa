//! Sources, and what each comes to. Words of instructions are as the RISC-V standard encodes them.

/// A source, and the words of its text.
pub(super) type Text = (&'static str, &'static [u32]);

/// Constants and addresses in registers.
pub(super) const CONSTANTS: &[Text] = &[
    ("li x5, 2047", &[0x7ff0_0293]),
    ("li x5, 000000000000000000002047", &[0x7ff0_0293]),
    ("li x5, 2048", &[0x0000_12b7, 0x8002_8293]),
    ("li x5, 4096", &[0x0000_12b7]),
    ("li x5, 0x12345678", &[0x1234_52b7, 0x6782_8293]),
    ("li x5, 0xffffffff", &[0xfff0_0293]),
    ("li x5, 0xfffff800", &[0x8000_0293]),
    ("li x5, -2049", &[0xffff_f2b7, 0x7ff2_8293]),
    ("li x5, 0x7fffffff", &[0x8000_02b7, 0xfff2_8293]),
    ("li x5, -2147483648", &[0x8000_02b7]),
    ("li a0, 0", &[0x0000_0513]),
    (".equ a, 3\nli x5, a + 4095", &[0x0000_12b7, 0x0022_8293]),
    (".equ a, 1\nli x5, a - -4095", &[0x0000_12b7]),
    ("lui x5, 1048575", &[0xffff_f2b7]),
    ("auipc x31, 0x12345", &[0x1234_5f97]),
    ("lui x5, %hi(0x12345fff)", &[0x1234_62b7]),
    ("addi x5, x5, %lo(0x12345fff)", &[0xfff2_8293]),
    ("nop\na: lw x6, %lo(a)(x5)", &[0x0000_0013, 0x0042_a303]),
    (
        ".equ a, -2\naddi x5, x0, %lo(a - 4294967295)",
        &[0xfff0_0293],
    ),
    ("a: la x5, a + 4", &[0x0000_02b7, 0x0042_8293]),
    ("la x5, 0x12345fff", &[0x1234_62b7, 0xfff2_8293]),
];

/// Jumps and branches.
pub(super) const JUMPS: &[Text] = &[
    ("jal x5, 8", &[0x0080_02ef]),
    ("jal 8", &[0x0080_00ef]),
    ("a: nop\njal a", &[0x0000_0013, 0xffdf_f0ef]),
    ("j 0", &[0x0000_006f]),
    ("j 1048574", &[0x7fff_f06f]),
    ("nop\nj -1048572", &[0x0000_0013, 0x8000_006f]),
    ("nop\ncall 0", &[0x0000_0013, 0xffdf_f0ef]),
    ("nop\nj a - 4\na:", &[0x0000_0013, 0x0000_006f]),
    ("x5: nop\njal x5", &[0x0000_0013, 0xffdf_f0ef]),
    ("jalr x1, 8(x2)", &[0x0081_00e7]),
    ("jalr x1, x2, -8", &[0xff81_00e7]),
    ("jalr x5", &[0x0002_80e7]),
    ("jalr x0, (x1)", &[0x0000_8067]),
    ("jr x3", &[0x0001_8067]),
    ("ret", &[0x0000_8067]),
    ("beq x5, x6, 4094", &[0x7e62_8fe3]),
    ("nop\nbne x5, x6, -4092", &[0x0000_0013, 0x8062_9063]),
    ("a: blt x5, x6, a", &[0x0062_c063]),
    ("bge x5, x6, a\na:", &[0x0062_d263]),
    ("bltu x5, x6, 8", &[0x0062_e463]),
    ("bgeu x5, x6, 8", &[0x0062_f463]),
    ("nop\nbeqz x5, 0", &[0x0000_0013, 0xfe02_8ee3]),
    ("a: bnez x5, a", &[0x0002_9063]),
    ("a: blez x5, a", &[0x0050_5063]),
    ("a: bgez x5, a", &[0x0002_d063]),
    ("a: bltz x5, a", &[0x0002_c063]),
    ("a: bgtz x5, a", &[0x0050_4063]),
    ("a: bgt x5, x6, a", &[0x0053_4063]),
    ("a: ble x5, x6, a", &[0x0053_5063]),
    ("a: bgtu x5, x6, a", &[0x0053_6063]),
    ("a: bleu x5, x6, a", &[0x0053_7063]),
];

/// Operations on registers, with immediates and without.
pub(super) const OPERATIONS: &[Text] = &[
    ("addi x5, x6, -2048", &[0x8003_0293]),
    ("slti x5, x6, 2047", &[0x7ff3_2293]),
    ("sltiu x5, x6, 1", &[0x0013_3293]),
    ("xori x5, x6, - 1", &[0xfff3_4293]),
    ("ori x5, x6, 0xFf", &[0x0ff3_6293]),
    ("andi x5, x6, 007", &[0x0073_7293]),
    ("addi x5, x0, a\n.equ a, 5", &[0x0050_0293]),
    ("slli x5, x6, 31", &[0x01f3_1293]),
    ("srli x5, x6, 1", &[0x0013_5293]),
    ("srai x5, x6, 0", &[0x4003_5293]),
    ("add x5, x6, x7", &[0x0073_02b3]),
    ("sub x5, x6, x7", &[0x4073_02b3]),
    ("sll x5, x6, x7", &[0x0073_12b3]),
    ("slt x5, x6, x7", &[0x0073_22b3]),
    ("sltu x5, x6, x7", &[0x0073_32b3]),
    ("xor x5, x6, x7", &[0x0073_42b3]),
    ("srl x5, x6, x7", &[0x0073_52b3]),
    ("sra x5, x6, x7", &[0x4073_52b3]),
    ("or x5, x6, x7", &[0x0073_62b3]),
    ("and x5, x6, x7", &[0x0073_72b3]),
    ("nop", &[0x0000_0013]),
    ("mv x5, x6", &[0x0003_0293]),
    ("not x5, x6", &[0xfff3_4293]),
    ("neg x5, x6", &[0x4060_02b3]),
    ("seqz x5, x6", &[0x0013_3293]),
    ("snez x5, x6", &[0x0060_32b3]),
    ("sltz x5, x6", &[0x0003_22b3]),
    ("sgtz x5, x6", &[0x0060_22b3]),
];

/// Loads, stores, AMOs, fences, and calls of the environment.
pub(super) const ACCESSES: &[Text] = &[
    ("lb x5, -1(x6)", &[0xfff3_0283]),
    ("lh x5, 2047(x6)", &[0x7ff3_1283]),
    ("lw x5, -2048(x6)", &[0x8003_2283]),
    ("lbu x5, (x6)", &[0x0003_4283]),
    ("lhu x5, 0x10(x6)", &[0x0103_5283]),
    (".equ a, -8\nlw x5, a(sp)", &[0xff81_2283]),
    ("sb x5, -1(x6)", &[0xfe53_0fa3]),
    ("sh x5, 2047(x6)", &[0x7e53_1fa3]),
    ("sw x5, (x6)", &[0x0053_2023]),
    ("amoadd.w x5, x6, (x7)", &[0x0063_a2af]),
    ("amoswap.w.aq x5, x6, (x7)", &[0x0c63_a2af]),
    ("amoxor.w.rl x5, x6, 0(x7)", &[0x2263_a2af]),
    ("amoor.w.aqrl x5, x6, 0(x7)", &[0x4663_a2af]),
    ("amoand.w x5, x6, (x7)", &[0x6063_a2af]),
    ("amomin.w.aq x5, x6, (x7)", &[0x8463_a2af]),
    ("amomax.w.rl x5, x6, (x7)", &[0xa263_a2af]),
    ("amominu.w.aqrl x5, x6, (x7)", &[0xc663_a2af]),
    ("amomaxu.w x5, x6, (x7)", &[0xe063_a2af]),
    ("fence", &[0x0ff0_000f]),
    ("fence rw, rw", &[0x0330_000f]),
    ("fence iorw, w", &[0x0f10_000f]),
    ("fence i, or", &[0x0860_000f]),
    ("ecall", &[0x0000_0073]),
    ("ebreak", &[0x0010_0073]),
];

/// Words, names of registers, labels and comments.
pub(super) const LINES: &[Text] = &[
    (".word -1, 7", &[0xffff_ffff, 0x0000_0007]),
    (".word 0xDEADbeef", &[0xdead_beef]),
    (".word -2147483648, 4294967295", &[0x8000_0000, 0xffff_ffff]),
    (
        "nop\na: .word a, b - 1\nb:",
        &[0x0000_0013, 0x0000_0004, 0x0000_000b],
    ),
    (
        "add x0, x1, x2\nadd x3, x4, x5\nadd x6, x7, x8",
        &[0x0020_8033, 0x0052_01b3, 0x0083_8333],
    ),
    (
        "add x9, x10, x11\nadd x12, x13, x14\nadd x15, x16, x17",
        &[0x00b5_04b3, 0x00e6_8633, 0x0118_07b3],
    ),
    (
        "add x18, x19, x20\nadd x21, x22, x23\nadd x24, x25, x26",
        &[0x0149_8933, 0x017b_0ab3, 0x01ac_8c33],
    ),
    (
        "add x27, x28, x29\nadd x30, x31, x0",
        &[0x01de_0db3, 0x000f_8f33],
    ),
    (
        "add zero, ra, sp\nadd gp, tp, t0\nadd t1, t2, s0",
        &[0x0020_8033, 0x0052_01b3, 0x0083_8333],
    ),
    (
        "add fp, s1, a0\nadd a1, a2, a3\nadd a4, a5, a6",
        &[0x00a4_8433, 0x00d6_05b3, 0x0107_8733],
    ),
    (
        "add a7, s2, s3\nadd s4, s5, s6\nadd s7, s8, s9",
        &[0x0139_08b3, 0x016a_8a33, 0x019c_0bb3],
    ),
    (
        "add s10, s11, t3\nadd t4, t5, t6",
        &[0x01cd_8d33, 0x01ff_0eb3],
    ),
    ("", &[]),
    ("# nothing", &[]),
    ("a: b: nop\nc:\n\nj c", &[0x0000_0013, 0x0000_006f]),
    ("_A.1 : nop", &[0x0000_0013]),
    ("\tnop # x $\r\nnop:nop", &[0x0000_0013, 0x0000_0013]),
    ("nop # \u{e9}", &[0x0000_0013]),
    (".globl main\n.global main\nmain: ecall", &[0x0000_0073]),
    (
        ".text\nnop\n.data\na: .text\nnop\n",
        &[0x0000_0013, 0x0000_0013],
    ),
];

/// The address of a piece, and its bytes.
pub(super) type Piece = (u32, &'static [u8]);

/// A source, the words of its text, and the pieces of its data.
pub(super) const DATA: &[(&str, &[u32], &[Piece])] = &[
    (
        ".data\n.word 0x11223344, 1\n.half 0x5566",
        &[],
        &[(
            0,
            &[0x44, 0x33, 0x22, 0x11, 0x01, 0x00, 0x00, 0x00, 0x66, 0x55],
        )],
    ),
    (
        ".data\n.byte -128, 255\n.half -32768, 65535\n.word -2147483648, 4294967295",
        &[],
        &[(
            0,
            &[
                0x80, 0xff, 0x00, 0x80, 0xff, 0xff, 0x00, 0x00, 0x00, 0x80, 0xff, 0xff, 0xff, 0xff,
            ],
        )],
    ),
    (
        ".equ a, 3\n.data\n.byte a - -5, b\n.balign 8\nb: .zero 2",
        &[],
        &[(0, &[0x08, 0x08]), (8, &[0x00, 0x00])],
    ),
    (
        ".data\n.byte 1\n.balign 1\n.byte 2\n.balign 4\n.byte 3\n.balign 64\n.byte 4",
        &[],
        &[(0, &[0x01, 0x02]), (4, &[0x03]), (64, &[0x04])],
    ),
    (
        ".data\n.org 16\n.byte -1\n.text\nnop\n.data\n.byte 2",
        &[0x0000_0013],
        &[(16, &[0xff, 0x02])],
    ),
    (
        ".data\n.org 4\n.byte 1\n.org 0\n.byte 2\n.org 5\n.byte 3",
        &[],
        &[(0, &[0x02]), (4, &[0x01, 0x03])],
    ),
    (
        ".data\n.org 2\n.byte 1\n.org 0\n.half 0x100",
        &[],
        &[(0, &[0x00, 0x01, 0x01])],
    ),
    (
        ".data\na: .org 8\n.byte a, b\nb:",
        &[],
        &[(8, &[0x00, 0x0a])],
    ),
    ("nop\na: .data\n.byte a", &[0x0000_0013], &[(0, &[0x04])]),
    (
        ".data\n.zero 3\n.zero 0\n.byte 1",
        &[],
        &[(0, &[0x00, 0x00, 0x00, 0x01])],
    ),
    (
        ".data\n.byte 1\n.balign 2\n.byte 2\n.balign 16\n.byte 3\n.balign 32\n.byte 4",
        &[],
        &[(0, &[0x01]), (2, &[0x02]), (16, &[0x03]), (32, &[0x04])],
    ),
    (
        ".data\n.byte 1\nc: .balign 8\nd: .byte c, d",
        &[],
        &[(0, &[0x01]), (8, &[0x01, 0x08])],
    ),
    (".data\n.org 1048575\n.byte 255", &[], &[(0xfffff, &[0xff])]),
    (".data\n.org 1048576\n.zero 0", &[], &[]),
    (
        ".word a\n.data\n.org 64\na: .word a",
        &[0x0000_0040],
        &[(64, &[0x40, 0x00, 0x00, 0x00])],
    ),
    (
        "lui x5, %hi(a)\nlw x5, %lo(a)(x5)\n.data\n.org 0x12fff\na: .byte 7",
        &[0x0001_32b7, 0xfff2_a283],
        &[(0x12fff, &[0x07])],
    ),
];

/// A source, and what is told of it.
pub(super) type Fault = (&'static str, &'static str);

/// Lines that have no form.
pub(super) const FORMS: &[Fault] = &[
    // bytes that begin no token
    ("nop $", "line 1: character 5"),
    ("\u{e9}: nop", "line 1: character 1"),
    ("nop\r\nnop\r", "line 2: character 4"),
    // words that are no mnemonic and no directive
    ("bad", "line 1: word 1"),
    ("nop\n\n  NOP", "line 3: word 3"),
    ("a: 5", "line 1: word 4"),
    // operands
    ("jal foo, 8", "line 1: operand 8"),
    ("jalr x1, x2", "line 1: operand 12"),
    ("jalr foo", "line 1: operand 6"),
    ("lw x5, x6 # six", "line 1: operand 16"),
    ("add x5, x32, x7", "line 1: operand 9"),
    ("addi x5, x6", "line 1: operand 12"),
    ("addi x5, x6, x7 + 1 + 1", "line 1: operand 21"),
    ("mv x5, x6, x7", "line 1: operand 10"),
    ("nop nop", "line 1: operand 5"),
    ("j", "line 1: operand 2"),
    ("amoadd.w x5, x6, 00(x7)", "line 1: operand 18"),
    ("fence rwo, w", "line 1: operand 7"),
    ("fence w", "line 1: operand 8"),
    ("li x5, a\n.equ a, 3", "line 1: operand 8"),
    ("a: li x5, a", "line 1: operand 11"),
    ("la x5, %hi(4)", "line 1: operand 8"),
    ("li x5, %lo(4)", "line 1: operand 8"),
    ("j %lo(4)", "line 1: operand 3"),
    ("lui x5, %hi(%lo(4))", "line 1: operand 13"),
    ("amoadd.w x5, x6, -0(x7)", "line 1: operand 18"),
    ("amoadd.w x5, x6, 0x0(x7)", "line 1: operand 18"),
    ("nop\rnop", "line 1: character 4"),
    ("j\r\nnop", "line 1: operand 2"),
    // words of the other space
    ("  .byte x y", "line 1: operand 3"),
    (".org 0", "line 1: operand 1"),
    (".balign 4", "line 1: operand 1"),
    (".half 4", "line 1: operand 1"),
    (".zero 4", "line 1: operand 1"),
    (".data\nnop nop", "line 2: operand 1"),
    // operands of directives
    (".data\n.org a", "line 2: operand 6"),
    (".data\n.zero 1, 2", "line 2: operand 8"),
    (".word 1,, 2", "line 1: operand 9"),
    (".word", "line 1: operand 6"),
    (".word %lo(4)", "line 1: operand 7"),
    (".equ a 3", "line 1: operand 8"),
    (".globl 5", "line 1: operand 8"),
    (".text 5", "line 1: operand 7"),
];

/// Numbers, names, addresses and distances.
pub(super) const VALUES: &[Fault] = &[
    // numbers
    ("addi x5, x0, 2048", "line 1: number 14"),
    ("addi x5, x0, - 2049", "line 1: number 14"),
    ("addi x5, x0, 0X1", "line 1: number 14"),
    ("addi x5, x0, %hi(0x12345678)", "line 1: number 14"),
    ("addi x5, x0, %lo(12ab)", "line 1: number 18"),
    ("lui x5, -1", "line 1: number 9"),
    ("lui x5, 1048576", "line 1: number 9"),
    ("slli x5, x5, 32", "line 1: number 14"),
    ("sw x5, 2048(x6)", "line 1: number 8"),
    ("li x5, 4294967296", "line 1: number 8"),
    (".equ a, 2\nli x5, a + 4294967295", "line 2: number 8"),
    (".equ a, -2147483649", "line 1: number 9"),
    (".word 1, 4294967296", "line 1: number 10"),
    (".data\n.half 65536", "line 2: number 7"),
    (".data\n.byte -129", "line 2: number 7"),
    (".data\n.balign 3", "line 2: number 9"),
    (".data\n.zero -1", "line 2: number 7"),
    ("nop\na: .word a + 4294967295", "line 2: number 10"),
    ("la x5, a + 4294967295\na:", "line 1: number 8"),
    ("j 4294967296", "line 1: number 3"),
    ("jal x1, 12ab", "line 1: number 9"),
    ("addi x5, x0, 0x", "line 1: number 14"),
    ("li x5, 1.0", "line 1: number 8"),
    ("li x5, 5x", "line 1: number 8"),
    (".data\n.balign 0", "line 2: number 9"),
    (".data\n.balign 128", "line 2: number 9"),
    (".data\n.org -1", "line 2: number 6"),
    (".data\n.org 4294967296", "line 2: number 6"),
    // numbers by their names
    ("addi x5, x0, a\n.equ a, 2048", "line 1: number 14"),
    ("sw x5, a(x6)\n.equ a, 3000", "line 1: number 8"),
    ("slli x5, x5, a\n.equ a, 32", "line 1: number 14"),
    ("lui x5, a\n.equ a, -1", "line 1: number 9"),
    (
        ".equ a, 0x12345678\naddi x5, x0, %hi(a)",
        "line 2: number 14",
    ),
    (".data\n.byte a\n.equ a, 256", "line 2: number 7"),
    (".data\n.half a\n.equ a, -32769", "line 2: number 7"),
    (".equ a, 1\nli x5, a + 12ab", "line 2: number 8"),
    // names that are defined twice
    ("a: nop\na: nop", "line 2: twice 1"),
    ("a: a: nop", "line 1: twice 4"),
    ("a: nop\n.equ a, 1", "line 2: twice 6"),
    ("a: .equ a, 1", "line 1: twice 9"),
    // addresses
    (
        ".data\n.word 1\n.org 2\n.byte 1",
        "line 4: overlap 0x00000002",
    ),
    (
        ".data\n.org 8\n.byte 1\n.org 6\n.word 1",
        "line 5: overlap 0x00000008",
    ),
    (".data\n.org 1048576\n.byte 1", "line 3: range 0x00100000"),
    (".data\n.org 0xFFFFFFFF", "line 2: range 0xffffffff"),
    (".data\n.zero 1048577", "line 2: range 0x00100000"),
    // names that are defined nowhere
    ("j nowhere", "line 1: unknown 3"),
    ("jal x5, x5", "line 1: unknown 9"),
    ("lui x5, %hi(q)", "line 1: unknown 13"),
    (".data\n.word 1, b", "line 2: unknown 10"),
    // distances
    ("jal x0, 3", "line 1: reach 3"),
    ("j 1048576", "line 1: reach 1048576"),
    ("nop\nj -1048574", "line 2: reach -1048578"),
    ("j 4294967295", "line 1: reach 4294967295"),
    ("beq x0, x0, 4096", "line 1: reach 4096"),
    ("a: nop\nbne x0, x0, a - 4094", "line 2: reach -4098"),
    ("beq x0, x0, 3", "line 1: reach 3"),
    ("a: j a + 1", "line 1: reach 1"),
];

/// Of several causes the first is told.
pub(super) const ORDER: &[Fault] = &[
    // a byte before all others
    ("bad $", "line 1: character 5"),
    ("add x5 $", "line 1: character 8"),
    ("addi x5, x0, 2048 $", "line 1: character 19"),
    ("a: a: nop $", "line 1: character 11"),
    (".data\n.org 1048577 $", "line 2: character 14"),
    (".data\n.byte 1\n.org 0\n.byte 2 $", "line 4: character 9"),
    ("j b $", "line 1: character 5"),
    ("j 3 $", "line 1: character 5"),
    // a word before an operand, a number and a name
    ("bad 4294967296,,", "line 1: word 1"),
    ("a: a: bad", "line 1: word 7"),
    // an operand before a number, a name and an address
    ("addi x5, x0, 2048, x1", "line 1: operand 18"),
    ("a: a: nop nop", "line 1: operand 11"),
    (".data\n.org 1048577 1", "line 2: operand 14"),
    (".data\n.byte 1\n.org 0\n.byte 2 3", "line 4: operand 9"),
    ("j b 5", "line 1: operand 5"),
    ("j 3 5", "line 1: operand 5"),
    // a number before a name and an address
    ("a: a: addi x5, x0, 2048", "line 1: number 20"),
    (".data\n.org 1048576\n.byte 256", "line 3: number 7"),
    (".data\n.byte 1\n.org 0\n.byte 256", "line 4: number 7"),
    (".word b, 4294967296", "line 1: number 10"),
    // a name that is defined twice before an address and the second round
    (".data\na: a: .org 1048577", "line 2: twice 4"),
    (".data\n.byte 1\n.org 0\na: a: .byte 2", "line 4: twice 4"),
    ("a: a: j b", "line 1: twice 4"),
    ("a: a: j 3", "line 1: twice 4"),
    // an address past memory before one that is named twice, and both before the second round
    (
        ".data\n.org 1048575\n.byte 1\n.org 1048575\n.half 1",
        "line 5: range 0x00100000",
    ),
    (".data\n.org 1048576\n.word b", "line 3: range 0x00100000"),
    (
        ".data\n.byte 1\n.org 0\n.byte b",
        "line 4: overlap 0x00000000",
    ),
    // in the second round a name before a number, and a number before a distance
    ("a: .word a + 4294967295, b", "line 1: unknown 26"),
    ("j b + 12ab", "line 1: unknown 3"),
    ("a: j a + 12ab", "line 1: number 6"),
    ("a: .word a + 4294967295 $", "line 1: character 25"),
    ("a: .word a + 4294967295 5", "line 1: operand 25"),
    ("a: .word a + 4294967295, 4294967296", "line 1: number 26"),
    ("a: a: .word a + 4294967295", "line 1: twice 4"),
    // the first round before the second, and then the first line
    ("j nowhere\nbad", "line 2: word 1"),
    ("j nowhere\na: a: nop", "line 2: twice 4"),
    ("j 3\nj nowhere", "line 1: reach 3"),
    // an earlier line before an earlier cause
    ("addi x5, x0, 2048\nnop $", "line 1: number 14"),
    ("a: nop\na: nop\nbad", "line 2: twice 1"),
    // the wrong space before what its operands are, and behind a byte
    (".data\nnop $", "line 2: character 5"),
    (".data\naddi x5, x0, 2048", "line 2: operand 1"),
    ("a: a: .org 0", "line 1: operand 7"),
];
