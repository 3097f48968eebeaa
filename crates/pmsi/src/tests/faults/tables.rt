//! Faults of jobs and of the files that they name, and what is told of each.
use super::super::File;

/// The lines of a job that has no fault.
pub(super) const GOOD: [&str; 9] = [
    "pmsi 1",
    "cores 1",
    "quantum 1",
    "line 4",
    "sets 1",
    "ways 1",
    "memory 64",
    "slots 4",
    "core 0 hex 00700293 00000073",
];

/// What stands in place of the lines of `GOOD` that begin so.
pub(super) type Change = (&'static str, &'static str);

/// Changes, and what is told of the job that they give.
pub(super) type Changed = (&'static [Change], &'static str);

/// Lines that are wrong by themselves.
pub(super) const LINES: &[Changed] = &[
    // the first line with fields
    (&[("pmsi", "pmsi 2")], "line 1: version"),
    (&[("pmsi", "pmsi")], "line 1: version"),
    (&[("pmsi", "pmsi 01")], "line 1: version"),
    (&[("pmsi", "pmsi 1 1")], "line 1: version"),
    (&[("pmsi", "PMSI 1")], "line 1: version"),
    (&[("pmsi", "pmsi1")], "line 1: version"),
    (&[("pmsi", "speed 3")], "line 1: version"),
    (&[("pmsi", "# pmsi 1\n\n \t")], "line 4: version"),
    // a first field that is unknown, and a third one of a core
    (&[("quantum", "speed 3")], "line 3: word"),
    (&[("slots", "slots: 4")], "line 8: word"),
    (&[("slots", "Slots 4")], "line 8: word"),
    (&[("slots", "slot 4")], "line 8: word"),
    (&[("slots", "slots\u{a0}4")], "line 8: word"),
    (&[("slots", "slots\u{b}4")], "line 8: word"),
    (&[("slots", "\u{feff}slots 4")], "line 8: word"),
    (&[("core 0", "core 0 bin 00000073")], "line 9: word"),
    (&[("core 0", "core 0 HEX 00000073")], "line 9: word"),
    (&[("core 0", "core 0 hex: 00000073")], "line 9: word"),
    // a wrong number of fields
    (&[("slots", "slots")], "line 8: count"),
    (&[("slots", "slots 4 4")], "line 8: count"),
    (&[("slots", "slots # 4")], "line 8: count"),
    (&[("core 0", "core")], "line 9: count"),
    (&[("core 0", "core 0")], "line 9: count"),
    (&[("core 0", "core hex")], "line 9: count"),
    (&[("core 0", "core 0 asm")], "line 9: count"),
    (&[("core 0", "core 0 image")], "line 9: count"),
    (&[("core 0", "core 0 asm a.s b.s")], "line 9: count"),
    (&[("core 0", "core 0 image a b")], "line 9: count"),
    // no number
    (&[("slots", "slots four")], "line 8: number"),
    (&[("slots", "slots -4")], "line 8: number"),
    (&[("slots", "slots +4")], "line 8: number"),
    (&[("slots", "slots 0x4")], "line 8: number"),
    (&[("slots", "slots 4.")], "line 8: number"),
    (&[("slots", "slots 1_0")], "line 8: number"),
    (&[("slots", "slots \u{664}")], "line 8: number"),
    (&[("slots", "slots 00000000004")], "line 8: number"),
    (&[("slots", "slots 4\r ")], "line 8: number"),
    (&[("slots", "slots 4\r\r")], "line 8: number"),
    (&[("core 0", "core zero hex 00000073")], "line 9: number"),
    (&[("core 0", "core -0 hex 00000073")], "line 9: number"),
    (&[("core 0", "core 4294967296 hex")], "line 9: number"),
    (&[("core 0", "core 9999999999 asm a.s")], "line 9: number"),
    (&[("core 0", "core 00000000000 hex")], "line 9: number"),
    // no word
    (&[("core 0", "core 0 hex 0000073")], "line 9: number"),
    (&[("core 0", "core 0 hex 000000073")], "line 9: number"),
    (&[("core 0", "core 0 hex 0000007g")], "line 9: number"),
    (&[("core 0", "core 0 hex 0x000073")], "line 9: number"),
    (&[("core 0", "core 0 hex 00000073 73")], "line 9: number"),
];

/// Heads and cores that are given twice, and those that are missing.
pub(super) const COUNTS: &[Changed] = &[
    (&[("cores", "pmsi 1\ncores 1")], "twice version"),
    (&[("core 0", "core 0 hex\npmsi")], "twice version"),
    (&[("cores", "cores 1\ncores 1")], "twice cores"),
    (&[("quantum", "quantum 1\nquantum 2")], "twice quantum"),
    (&[("line", "line 4\nline 4")], "twice line"),
    (&[("sets", "sets 1\nsets 1")], "twice sets"),
    (&[("ways", "ways 1\nways 1")], "twice ways"),
    (&[("memory", "memory 64\nmemory 64")], "twice memory"),
    (&[("slots", "slots 4\nslots 04")], "twice slots"),
    (&[("core 0", "core 0 hex\ncore 0 hex")], "twice core 0"),
    (&[("core 0", "core 0 hex\ncore 00 asm a.s")], "twice core 0"),
    (
        &[("slots", "core 7 hex\nslots 4\ncore 07 hex")],
        "twice core 7",
    ),
    (
        &[("core 0", "core 4294967295 hex\ncore 4294967295 hex")],
        "twice core 4294967295",
    ),
    (&[("cores", "")], "missing cores"),
    (&[("quantum", "# quantum 1")], "missing quantum"),
    (&[("line", "")], "missing line"),
    (&[("sets", "")], "missing sets"),
    (&[("ways", "")], "missing ways"),
    (&[("memory", "")], "missing memory"),
    (&[("slots", "")], "missing slots"),
    (&[("core 0", "")], "missing core 0"),
    (&[("cores", "cores 2")], "missing core 1"),
    (
        &[
            ("cores", "cores 16"),
            ("slots", "slots 4\ncore 3 hex\ncore 1 hex"),
        ],
        "missing core 2",
    ),
];

/// Numbers outside their limits.
pub(super) const LIMITS: &[Changed] = &[
    (&[("cores", "cores 0")], "limit cores 0"),
    (&[("cores", "cores 17")], "limit cores 17"),
    (&[("cores", "cores 9999999999")], "limit cores 9999999999"),
    (&[("quantum", "quantum 0")], "limit quantum 0"),
    (&[("quantum", "quantum 257")], "limit quantum 257"),
    (&[("line", "line 0")], "limit line 0"),
    (&[("line", "line 2")], "limit line 2"),
    (&[("line", "line 12")], "limit line 12"),
    (&[("line", "line 17")], "limit line 17"),
    (&[("line", "line 32")], "limit line 32"),
    (&[("sets", "sets 0")], "limit sets 0"),
    (&[("sets", "sets 3")], "limit sets 3"),
    (&[("sets", "sets 512")], "limit sets 512"),
    (&[("ways", "ways 0")], "limit ways 0"),
    (&[("ways", "ways 9")], "limit ways 9"),
    (&[("memory", "memory 48")], "limit memory 48"),
    (&[("memory", "memory 72")], "limit memory 72"),
    (
        &[("line", "line 16"), ("memory", "memory 96")],
        "limit memory 96",
    ),
    (&[("memory", "memory 1048592")], "limit memory 1048592"),
    (
        &[("memory", "memory 4294967360")],
        "limit memory 4294967360",
    ),
    (&[("slots", "slots 1000001")], "limit slots 1000001"),
    (&[("slots", "slots 4294967296")], "limit slots 4294967296"),
    (&[("slots", "slots 4\ncore 1 hex")], "limit core 1 1"),
    (
        &[("slots", "core 9 hex\nslots 4\ncore 5 hex\ncore 6 hex")],
        "limit core 5 5",
    ),
    (
        &[("slots", "slots 4\ncore 4294967295 asm a.s")],
        "limit core 4294967295 4294967295",
    ),
];

/// Numbers at their limits: nothing is told of them, but of the core that is missing.
pub(super) const WITHIN: &[Change] = &[
    ("cores", "cores 16"),
    ("quantum", "quantum 256"),
    ("line", "line 8"),
    ("line", "line 16"),
    ("sets", "sets 2"),
    ("sets", "sets 256"),
    ("ways", "ways 8"),
    ("memory", "memory 80"),
    ("memory", "memory 1048576"),
    ("slots", "slots 0"),
    ("slots", "slots 1000000"),
];

/// Two faults, of which the one that is looked for first is told.
pub(super) const ORDER: &[Changed] = &[
    // in one line
    (&[("core 0", "core x bin")], "line 9: word"),
    (&[("core 0", "core x asm")], "line 9: count"),
    (&[("core 0", "core x asm a.s b.s")], "line 9: count"),
    (&[("core 0", "core x")], "line 9: count"),
    (&[("slots", "slots x y")], "line 8: count"),
    (&[("slots", "slots 4\nslots x")], "line 9: number"),
    (&[("slots", "slots 4\nslots")], "line 9: count"),
    (&[("core 0", "core 0 hex\ncore 0 bin")], "line 10: word"),
    (&[("core 0", "core 0 hex\ncore 0 hex 7")], "line 10: number"),
    // in two lines
    (
        &[("cores", "cores x"), ("slots", "speed 3")],
        "line 2: number",
    ),
    (&[("cores", "cores"), ("pmsi", "pmsi 2")], "line 1: version"),
    (
        &[("ways", "ways 1\nways 1"), ("slots", "slots")],
        "twice ways",
    ),
    (
        &[("cores", "cores 1 1"), ("slots", "slots 4\nslots 4")],
        "line 2: count",
    ),
    (&[("cores", "pmsi 1\ncores x")], "twice version"),
    // a line, and what is said by all of them
    (
        &[("cores", ""), ("core 0", "core 0 hex 7")],
        "line 9: number",
    ),
    (
        &[("cores", "cores 17"), ("core 0", "core 0 bin")],
        "line 9: word",
    ),
    (
        &[("quantum", ""), ("slots", "slots 4\nslots 4")],
        "twice slots",
    ),
    // missing heads, in their order, before limits
    (&[("slots", ""), ("cores", "")], "missing cores"),
    (&[("cores", "cores 17"), ("slots", "")], "missing slots"),
    (&[("line", "line 5"), ("memory", "")], "missing memory"),
    // limits of heads, in their order, before cores
    (
        &[("slots", "slots 1000001"), ("cores", "cores 0")],
        "limit cores 0",
    ),
    (
        &[("memory", "memory 63"), ("line", "line 5")],
        "limit line 5",
    ),
    (
        &[("sets", "sets 0"), ("core 0", "core 5 hex")],
        "limit sets 0",
    ),
    (
        &[("slots", "slots 1000001"), ("core 0", "")],
        "limit slots 1000001",
    ),
    // cores that are too many before those that are missing
    (&[("core 0", "core 1 hex")], "limit core 1 1"),
    (
        &[("cores", "cores 2"), ("core 0", "core 9 hex\ncore 2 hex")],
        "limit core 2 2",
    ),
    // the job's own faults before its files
    (
        &[("core 0", "core 0 asm none.s\ncore 1 hex")],
        "limit core 1 1",
    ),
    (
        &[("core 0", "core 0 asm none.s\ncore 0 hex")],
        "twice core 0",
    ),
];

/// The programs of two cores, their files, and what is told of them.
pub(super) type Programs = (&'static str, &'static [File], &'static str);

/// Files of programs that are refused.
pub(super) const PROGRAMS: &[Programs] = &[
    // a fault of core 0's file stands before the file of core 1 is looked for, whatever the order of their lines
    (
        "core 0 asm a.s\ncore 1 asm none.s",
        &[("a.s", b"bad")],
        "core 0: line 1: word 1",
    ),
    (
        "core 1 asm none.s\ncore 0 asm a.s",
        &[("a.s", b"nop\nnop $")],
        "core 0: line 2: character 5",
    ),
    (
        "core 1 asm b.s\ncore 0 asm a.s",
        &[("a.s", b"nop"), ("b.s", b"j nowhere")],
        "core 1: line 1: unknown 3",
    ),
    // one file for both cores, and files of another kind
    (
        "core 0 asm a.s\ncore 1 asm a.s",
        &[("a.s", b"addi x5, x0, 2048")],
        "core 0: line 1: number 14",
    ),
    (
        "core 0 hex\ncore 1 asm a.s",
        &[("a.s", b"nop # \xff")],
        "core 1: not text",
    ),
    (
        "core 0 hex\ncore 1 image a.img",
        &[("a.img", b"PMSIIMG1")],
        "core 1: short 16 8",
    ),
    (
        "core 0 image a.s\ncore 1 hex",
        &[("a.s", b"addi x5, x0, 7\necall\n")],
        "core 0: magic",
    ),
    (
        "core 0 image a.img\ncore 1 hex",
        &[("a.img", b"PMSIIMG1\0\0\0\0\0\0\0\0\0")],
        "core 0: extra 16",
    ),
    (
        "core 0 asm a.img\ncore 1 hex",
        &[("a.img", b"PMSIIMG1\0\0\0\0\0\0\0\0")],
        "core 0: line 1: character 9",
    ),
    // what programs give together comes behind all of them
    (
        "core 0 asm a.s\ncore 1 asm b.s",
        &[("a.s", b".data\n.org 64\n.byte 1"), ("b.s", b"bad")],
        "core 1: line 1: word 1",
    ),
    (
        "core 0 asm a.s\ncore 1 asm b.s",
        &[("a.s", b".data\n.org 64\n.byte 1"), ("b.s", b"")],
        "input: beyond 0 0x00000040",
    ),
    (
        "core 0 asm a.s\ncore 1 asm b.s",
        &[("a.s", b".data\n.org 62\n.word 0"), ("b.s", b"")],
        "input: beyond 0 0x00000040",
    ),
    (
        "core 0 hex\ncore 1 image a.img",
        &[("a.img", b"PMSIIMG1\0\0\0\0\x01\0\0\0\x64\0\0\0\x01\0\0\0\0")],
        "input: beyond 1 0x00000064",
    ),
    (
        "core 0 asm a.s\ncore 1 asm b.s",
        &[
            ("a.s", b".data\n.word 1"),
            (
                "b.s",
                b".data\n.word 2\n.org 200\n.byte 0\n.org 100\n.byte 0",
            ),
        ],
        "input: beyond 1 0x00000064",
    ),
    (
        "core 0 asm a.s\ncore 1 asm b.s",
        &[("a.s", b".data\n.word 1"), ("b.s", b".data\n.word 2")],
        "input: overlap 0 1 0x00000000",
    ),
    (
        "core 0 asm a.s\ncore 1 asm b.s",
        &[("a.s", b".data\n.word 1"), ("b.s", b".data\n.word 257")],
        "input: overlap 0 1 0x00000001",
    ),
    (
        "core 0 asm a.s\ncore 1 asm b.s",
        &[
            ("a.s", b".data\n.org 63\n.byte 1"),
            ("b.s", b".data\n.zero 64"),
        ],
        "input: overlap 0 1 0x0000003f",
    ),
];

/// Three sources whose bytes differ, and the first difference: the least address, and there the least pair of cores.
pub(super) const OVERLAPS: &[([&str; 3], &str)] = &[
    (
        [".data\n.word 1", ".data\n.word 1", ".data\n.word 2"],
        "input: overlap 0 2 0x00000000",
    ),
    (
        [".data\n.word 1", ".data\n.word 2", ".data\n.word 2"],
        "input: overlap 0 1 0x00000000",
    ),
    (
        ["", ".data\n.word 1", ".data\n.word 2"],
        "input: overlap 1 2 0x00000000",
    ),
    (
        [".data\n.half 7, 1", ".data\n.half 7, 2", ".data\n.half 8"],
        "input: overlap 0 2 0x00000000",
    ),
    (
        [
            ".data\n.org 8\n.byte 1",
            ".data\n.org 8\n.byte 2",
            ".data\n.org 64\n.byte 3",
        ],
        "input: beyond 2 0x00000040",
    ),
];

/// The programs of two cores and their files, of which one is missing that is looked for before another fault.
pub(super) const MISSING: &[(&str, &[File])] = &[
    ("core 0 asm none.s\ncore 1 asm b.s", &[("b.s", b"bad")]),
    ("core 0 asm a.s\ncore 1 asm none.s", &[("a.s", b"nop")]),
    ("core 0 image none.img\ncore 1 hex", &[]),
    (
        "core 1 image none.img\ncore 0 asm a.s",
        &[("a.s", b".data\n.org 64\n.byte 1")],
    ),
    ("core 0 asm A.s\ncore 1 hex", &[("a.s", b"nop")]),
];

/// Cores, quantum and slots, and the accesses that they can give at most, which is too many.
pub(super) const TOUCHES: &[(usize, u32, u32, &str)] = &[
    (16, 256, 1000, "touches 4096000"),
    (1, 256, 20_000, "touches 5120000"),
    (1, 256, 15_626, "touches 4000256"),
    (16, 256, 1_000_000, "touches 4096000000"),
];
