//! Small jobs, and what a run of each prints.
use super::{ADDED, ADDS};

/// A job, by the lines of its shape and the sources of its cores, and what its run prints with the words given.
#[derive(Clone, Copy)]
pub(crate) struct Example {
    pub(crate) heads: &'static str,
    pub(crate) sources: &'static [&'static str],
    pub(crate) words: &'static [&'static str],
    pub(crate) listing: &'static str,
}

/// Neither actions nor accesses are printed.
const PLAIN: &[&str] = &["run", "a.job"];

const TRACE: &[&str] = &["run", "--trace", "yes", "a.job"];

const TOUCHES: &[&str] = &["run", "--touches", "yes", "a.job"];

const BOTH: &[&str] = &["run", "--trace", "yes", "--touches", "yes", "a.job"];

/// The core halts in the second slot, and the run goes on.
const ADDS_AND_EXITS: Example = Example {
    heads: "quantum 1\nline 4\nsets 1\nways 1\nmemory 64\nslots 4",
    sources: &[ADDS],
    words: PLAIN,
    listing: ADDED,
};

/// A run of no slot ends where it starts.
const TAKES_NO_SLOT: Example = Example {
    heads: "quantum 1\nline 4\nsets 1\nways 1\nmemory 64\nslots 0",
    sources: &[ADDS],
    words: TRACE,
    listing: "pmsi listing 1
cores 1 quantum 1 line 4 sets 1 ways 1 memory 64 slots 0
core 0 pc 0x00000000 retired 0 running
regs x11=0x00000001
held
waits 0 count 0 greatest 0 sum 0
bound 8
end
",
};

/// The sources of two cores give the same bytes to memory.
const SAME_BYTES: Example = Example {
    heads: "quantum 1\nline 4\nsets 1\nways 1\nmemory 64\nslots 0",
    sources: &[".data\n.word 1\n"; 2],
    words: PLAIN,
    listing: "pmsi listing 1
cores 2 quantum 1 line 4 sets 1 ways 1 memory 64 slots 0
core 0 pc 0x00000000 retired 0 running
regs x11=0x00000002
held
core 1 pc 0x00000000 retired 0 running
regs x10=0x00000001 x11=0x00000002
held
mem 0x00000000 01000000000000000000000000000000
waits 0 count 0 greatest 0 sum 0
waits 1 count 0 greatest 0 sum 0
bound 36
end
",
};

/// Two cores store to one line. Core 1 is halted in slot 2, and still writes the line back in slot 3.
pub(crate) const TWO_WRITERS: Example = Example {
    heads: "quantum 1\nline 4\nsets 1\nways 1\nmemory 64\nslots 6",
    sources: &["addi x5, x0, 7\nsw x5, 0(x0)\necall\n"; 2],
    words: BOTH,
    listing: "pmsi listing 1
cores 2 quantum 1 line 4 sets 1 ways 1 memory 64 slots 6
core 0 pc 0x00000008 retired 2 exit 0
regs x5=0x00000007 x11=0x00000002
held 0:M
core 1 pc 0x00000008 retired 2 exit 1
regs x5=0x00000007 x10=0x00000001 x11=0x00000002
held
mem 0x00000000 07000000000000000000000000000000
row core 1 line 0 write issue 1 post 1 fill 1 wait 1
row core 0 line 0 write issue 1 post 2 fill 4 wait 4
waits 0 count 1 greatest 4 sum 4
waits 1 count 1 greatest 1 sum 1
bound 36
slot 0 core 0 idle
slot 1 core 1 postfill GetM 0
slot 2 core 0 post GetM 0
slot 3 core 1 back 0 drop
slot 4 core 0 fill 0
slot 5 core 1 idle
touch 1 core 1 write 4 0x00000000 0x00000000 0x00000007
touch 4 core 0 write 4 0x00000000 0x00000007 0x00000007
end
",
};

/// The same, cut off before the second store is done.
const OPEN_AT_THE_END: Example = Example {
    heads: "quantum 1\nline 4\nsets 1\nways 1\nmemory 64\nslots 4",
    sources: &["addi x5, x0, 7\nsw x5, 0(x0)\necall\n"; 2],
    words: BOTH,
    listing: "pmsi listing 1
cores 2 quantum 1 line 4 sets 1 ways 1 memory 64 slots 4
core 0 pc 0x00000004 retired 1 running
regs x5=0x00000007 x11=0x00000002
held
core 1 pc 0x00000008 retired 2 exit 1
regs x5=0x00000007 x10=0x00000001 x11=0x00000002
held
mem 0x00000000 07000000000000000000000000000000
row core 1 line 0 write issue 1 post 1 fill 1 wait 1
open core 0 line 0 write issue 1 post 2 age 3
waits 0 count 0 greatest 0 sum 0
waits 1 count 1 greatest 1 sum 1
bound 36
slot 0 core 0 idle
slot 1 core 1 postfill GetM 0
slot 2 core 0 post GetM 0
slot 3 core 1 back 0 drop
touch 1 core 1 write 4 0x00000000 0x00000000 0x00000007
end
",
};

/// The owner of a line keeps it Shared for a reader that waits.
const READER_BEHIND_AN_OWNER: Example = Example {
    heads: "quantum 1\nline 4\nsets 1\nways 1\nmemory 64\nslots 7",
    sources: &[
        "addi x5, x0, 7\nsw x5, 0(x0)\necall\n",
        "nop\nnop\nlw x6, 0(x0)\necall\n",
    ],
    words: TRACE,
    listing: "pmsi listing 1
cores 2 quantum 1 line 4 sets 1 ways 1 memory 64 slots 7
core 0 pc 0x00000008 retired 2 exit 0
regs x5=0x00000007 x11=0x00000002
held 0:S
core 1 pc 0x0000000c retired 3 exit 1
regs x6=0x00000007 x10=0x00000001 x11=0x00000002
held 0:S
mem 0x00000000 07000000000000000000000000000000
row core 0 line 0 write issue 1 post 2 fill 2 wait 2
row core 1 line 0 read issue 2 post 3 fill 5 wait 4
waits 0 count 1 greatest 2 sum 2
waits 1 count 1 greatest 4 sum 4
bound 36
slot 0 core 0 idle
slot 1 core 1 idle
slot 2 core 0 postfill GetM 0
slot 3 core 1 post GetS 0
slot 4 core 0 back 0 keep
slot 5 core 1 fill 0
slot 6 core 0 idle
end
",
};

/// A reader with a writer behind it takes its value and keeps no copy.
const READ_BEFORE_WRITE: Example = Example {
    heads: "quantum 1\nline 4\nsets 1\nways 1\nmemory 64\nslots 7",
    sources: &[
        "sw x11, 0(x0)\necall\n",
        "lw x6, 0(x0)\necall\n",
        "sw x10, 0(x0)\necall\n",
    ],
    words: TRACE,
    listing: "pmsi listing 1
cores 3 quantum 1 line 4 sets 1 ways 1 memory 64 slots 7
core 0 pc 0x00000004 retired 1 exit 0
regs x11=0x00000003
held
core 1 pc 0x00000004 retired 1 exit 1
regs x6=0x00000003 x10=0x00000001 x11=0x00000003
held
core 2 pc 0x00000004 retired 1 exit 2
regs x10=0x00000002 x11=0x00000003
held 0:M
mem 0x00000000 02000000000000000000000000000000
row core 0 line 0 write issue 0 post 0 fill 0 wait 1
row core 1 line 0 read issue 0 post 1 fill 4 wait 5
row core 2 line 0 write issue 0 post 2 fill 5 wait 6
waits 0 count 1 greatest 1 sum 1
waits 1 count 1 greatest 5 sum 5
waits 2 count 1 greatest 6 sum 6
bound 96
slot 0 core 0 postfill GetM 0
slot 1 core 1 post GetS 0
slot 2 core 2 post GetM 0
slot 3 core 0 back 0 drop
slot 4 core 1 fill 0
slot 5 core 2 fill 0
slot 6 core 0 idle
end
",
};

/// Two cores hold a line Shared, and both store to it: the first by an upgrade, which takes the other's copy.
const SHARED_HOLDERS_STORE: Example = Example {
    heads: "quantum 1\nline 4\nsets 1\nways 1\nmemory 64\nslots 7",
    sources: &["lw x6, 0(x0)\nsw x10, 0(x0)\necall\n"; 2],
    words: TRACE,
    listing: "pmsi listing 1
cores 2 quantum 1 line 4 sets 1 ways 1 memory 64 slots 7
core 0 pc 0x00000008 retired 2 exit 0
regs x11=0x00000002
held
core 1 pc 0x00000008 retired 2 exit 1
regs x10=0x00000001 x11=0x00000002
held 0:M
mem 0x00000000 01000000000000000000000000000000
row core 0 line 0 read issue 0 post 0 fill 0 wait 1
row core 1 line 0 read issue 0 post 1 fill 1 wait 2
row core 0 line 0 write issue 1 post 2 fill 2 wait 2
row core 1 line 0 write issue 2 post 3 fill 5 wait 4
waits 0 count 2 greatest 2 sum 3
waits 1 count 2 greatest 4 sum 6
bound 36
slot 0 core 0 postfill GetS 0
slot 1 core 1 postfill GetS 0
slot 2 core 0 postfill Upg 0
slot 3 core 1 post GetM 0
slot 4 core 0 back 0 drop
slot 5 core 1 fill 0
slot 6 core 0 idle
end
",
};

/// The second store needs the room of the first one's line, which is written back before.
const MODIFIED_VICTIM: Example = Example {
    heads: "quantum 1\nline 4\nsets 1\nways 1\nmemory 64\nslots 4",
    sources: &["sw x11, 0(x0)\nsw x11, 16(x0)\necall\n"],
    words: TRACE,
    listing: "pmsi listing 1
cores 1 quantum 1 line 4 sets 1 ways 1 memory 64 slots 4
core 0 pc 0x00000008 retired 2 exit 0
regs x11=0x00000001
held 1:M
mem 0x00000000 01000000000000000000000000000000
mem 0x00000010 01000000000000000000000000000000
row core 0 line 0 write issue 0 post 0 fill 0 wait 1
row core 0 line 1 write issue 1 post 2 fill 2 wait 2
waits 0 count 2 greatest 2 sum 3
bound 8
slot 0 core 0 postfill GetM 0
slot 1 core 0 back 0 drop
slot 2 core 0 postfill GetM 1
slot 3 core 0 idle
end
",
};

/// A line that a reader waits for becomes the victim of a miss: it is dropped and not kept.
const VICTIM_ALREADY_DEMANDED: Example = Example {
    heads: "quantum 1\nline 4\nsets 1\nways 1\nmemory 64\nslots 6",
    sources: &[
        "sw x11, 0(x0)\nnop\nsw x11, 16(x0)\necall\n",
        "lw x6, 0(x0)\necall\n",
    ],
    words: TRACE,
    listing: "pmsi listing 1
cores 2 quantum 1 line 4 sets 1 ways 1 memory 64 slots 6
core 0 pc 0x0000000c retired 3 exit 0
regs x11=0x00000002
held 1:M
core 1 pc 0x00000004 retired 1 exit 1
regs x6=0x00000002 x10=0x00000001 x11=0x00000002
held 0:S
mem 0x00000000 02000000000000000000000000000000
mem 0x00000010 02000000000000000000000000000000
row core 0 line 0 write issue 0 post 0 fill 0 wait 1
row core 1 line 0 read issue 0 post 1 fill 3 wait 4
row core 0 line 1 write issue 2 post 4 fill 4 wait 3
waits 0 count 2 greatest 3 sum 4
waits 1 count 1 greatest 4 sum 4
bound 36
slot 0 core 0 postfill GetM 0
slot 1 core 1 post GetS 0
slot 2 core 0 back 0 drop
slot 3 core 1 fill 0
slot 4 core 0 postfill GetM 1
slot 5 core 1 idle
end
",
};

/// Of two Shared lines the one that was used less recently makes room.
const LEAST_RECENTLY_USED: Example = Example {
    heads: "quantum 1\nline 4\nsets 1\nways 2\nmemory 64\nslots 5",
    sources: &["lw x5, 0(x0)\nlw x6, 16(x0)\nlw x7, 0(x0)\nlw x8, 32(x0)\necall\n"],
    words: BOTH,
    listing: "pmsi listing 1
cores 1 quantum 1 line 4 sets 1 ways 2 memory 64 slots 5
core 0 pc 0x00000010 retired 4 exit 0
regs x11=0x00000001
held 2:S 0:S
row core 0 line 0 read issue 0 post 0 fill 0 wait 1
row core 0 line 1 read issue 1 post 1 fill 1 wait 1
row core 0 line 2 read issue 3 post 3 fill 3 wait 1
waits 0 count 3 greatest 1 sum 3
bound 8
slot 0 core 0 postfill GetS 0
slot 1 core 0 postfill GetS 1
slot 2 core 0 idle
slot 3 core 0 postfill GetS 2
slot 4 core 0 idle
touch 0 core 0 read 4 0x00000000 0x00000000 0x00000000
touch 1 core 0 read 4 0x00000010 0x00000000 0x00000000
touch 2 core 0 read 4 0x00000000 0x00000000 0x00000000
touch 3 core 0 read 4 0x00000020 0x00000000 0x00000000
end
",
};

/// Two cores store to different bytes of a word, and each loads the word right behind its store.
const BYTE_LANES: Example = Example {
    heads: "quantum 1\nline 4\nsets 1\nways 1\nmemory 64\nslots 7",
    sources: &[
        "addi x5, x0, 85\nsb x5, 1(x0)\nlw x7, 0(x0)\necall\n",
        "addi x6, x0, 51\nsb x6, 2(x0)\nlw x7, 0(x0)\necall\n",
    ],
    words: BOTH,
    listing: "pmsi listing 1
cores 2 quantum 1 line 4 sets 1 ways 1 memory 64 slots 7
core 0 pc 0x0000000c retired 3 exit 0
regs x5=0x00000055 x7=0x00335500 x11=0x00000002
held 0:M
core 1 pc 0x0000000c retired 3 exit 1
regs x6=0x00000033 x7=0x00330000 x10=0x00000001 x11=0x00000002
held
mem 0x00000000 00553300000000000000000000000000
row core 1 line 0 write issue 1 post 1 fill 1 wait 1
row core 0 line 0 write issue 1 post 2 fill 4 wait 4
waits 0 count 1 greatest 4 sum 4
waits 1 count 1 greatest 1 sum 1
bound 36
slot 0 core 0 idle
slot 1 core 1 postfill GetM 0
slot 2 core 0 post GetM 0
slot 3 core 1 back 0 drop
slot 4 core 0 fill 0
slot 5 core 1 idle
slot 6 core 0 idle
touch 1 core 1 write 1 0x00000002 0x00000000 0x00000033
touch 2 core 1 read 4 0x00000000 0x00330000 0x00330000
touch 4 core 0 write 1 0x00000001 0x00000000 0x00000055
touch 5 core 0 read 4 0x00000000 0x00335500 0x00335500
end
",
};

/// An AMO whose destination is its operand: the register gets the old word, 0, and memory its 9. Accesses alone are
/// asked for.
const SWAPS_INTO_ITS_OPERAND: Example = Example {
    heads: "quantum 1\nline 4\nsets 1\nways 1\nmemory 64\nslots 3",
    sources: &["addi x5, x0, 9\namoswap.w.aqrl x5, x5, (x0)\necall\n"],
    words: TOUCHES,
    listing: "pmsi listing 1
cores 1 quantum 1 line 4 sets 1 ways 1 memory 64 slots 3
core 0 pc 0x00000008 retired 2 exit 0
regs x11=0x00000001
held 0:M
mem 0x00000000 09000000000000000000000000000000
row core 0 line 0 write issue 1 post 1 fill 1 wait 1
waits 0 count 1 greatest 1 sum 1
bound 8
touch 1 core 0 write 4 0x00000000 0x00000000 0x00000009
end
",
};
/// All of them, by what they show.
pub(super) const EXAMPLES: &[(&str, Example)] = &[
    ("adds_and_exits", ADDS_AND_EXITS),
    ("takes_no_slot", TAKES_NO_SLOT),
    ("same_bytes", SAME_BYTES),
    ("two_writers", TWO_WRITERS),
    ("open_at_the_end", OPEN_AT_THE_END),
    ("reader_behind_an_owner", READER_BEHIND_AN_OWNER),
    ("read_before_write", READ_BEFORE_WRITE),
    ("shared_holders_store", SHARED_HOLDERS_STORE),
    ("modified_victim", MODIFIED_VICTIM),
    ("victim_already_demanded", VICTIM_ALREADY_DEMANDED),
    ("least_recently_used", LEAST_RECENTLY_USED),
    ("byte_lanes", BYTE_LANES),
    ("swaps_into_its_operand", SWAPS_INTO_ITS_OPERAND),
];
