ghost use Rattle.std.specs.Prelude.{◌≡◌, IfOk};
ghost use Rattle.pmsi_model.specs.Image.{IsImage};

use super::*;
use arrayvec::ArrayVec;
use pmsi_model::{Bytes, Image, Piece, Pieces, Words};
use rv_decode::decode;
use std::alloc::{AllocError, Global};
use std::process::Abort;
use std::test::*;

/// Words as the GNU assembler writes them, one of each operation at least; where they stand; their texts.
static TEXTS: [(u32, u32, &str); 54] = [
    (0x1234_52b7, 0, "lui x5, 74565"),
    (0xffff_f317, 0, "auipc x6, 1048575"),
    (0xfff2_8293, 0, "addi x5, x5, -1"),
    (0x01f3_1293, 0, "slli x5, x6, 31"),
    (0x8003_2293, 0, "slti x5, x6, -2048"),
    (0x7ff3_3293, 0, "sltiu x5, x6, 2047"),
    (0xfff3_4293, 0, "xori x5, x6, -1"),
    (0x0013_5293, 0, "srli x5, x6, 1"),
    (0x41f3_5293, 0, "srai x5, x6, 31"),
    (0x0018_6f93, 0, "ori x31, x16, 1"),
    (0x0ff3_7293, 0, "andi x5, x6, 255"),
    (0x0062_83b3, 0, "add x7, x5, x6"),
    (0x4062_83b3, 0, "sub x7, x5, x6"),
    (0x0062_93b3, 0, "sll x7, x5, x6"),
    (0x0062_a3b3, 0, "slt x7, x5, x6"),
    (0x0062_b3b3, 0, "sltu x7, x5, x6"),
    (0x0062_c3b3, 0, "xor x7, x5, x6"),
    (0x0062_d3b3, 0, "srl x7, x5, x6"),
    (0x4062_d3b3, 0, "sra x7, x5, x6"),
    (0x0062_e3b3, 0, "or x7, x5, x6"),
    (0x0062_f3b3, 0, "and x7, x5, x6"),
    (0x2a70_00ef, 0, "jal x1, 2726"),
    (0xf05f_f06f, 252, "jal x0, 0"),
    (0xf05f_f06f, 4, "jal x0, -248"),
    (0x7fff_ffef, 0xffff_fffc, "jal x31, 4296015866"),
    (0xffc2_80e7, 8, "jalr x1, -4(x5)"),
    (0x7eb0_0fe3, 2, "beq x0, x11, 4096"),
    (0x8062_9063, 0, "bne x5, x6, -4096"),
    (0x0062_c163, 4, "blt x5, x6, 6"),
    (0x5462_da63, 0, "bge x5, x6, 1364"),
    (0xfe62_efe3, 0, "bltu x5, x6, -2"),
    (0x0062_f0e3, 16, "bgeu x5, x6, 2064"),
    (0x8003_0283, 0, "lb x5, -2048(x6)"),
    (0x7ff3_1283, 0, "lh x5, 2047(x6)"),
    (0xffc3_2283, 4, "lw x5, -4(x6)"),
    (0x0003_4283, 0, "lbu x5, 0(x6)"),
    (0x0063_5283, 0, "lhu x5, 6(x6)"),
    (0xfe53_0fa3, 0, "sb x5, -1(x6)"),
    (0x0253_1123, 0, "sh x5, 34(x6)"),
    (0xfe53_2e23, 4, "sw x5, -4(x6)"),
    (0x0ff0_000f, 0, "fence"),
    (0x0330_000f, 0, ".word 0x0330000f"),
    (0x8330_000f, 0, ".word 0x8330000f"),
    (0x0000_0073, 0, "ecall"),
    (0x0010_0073, 0, "ebreak"),
    (0x0063_a2af, 0, "amoadd.w x5, x6, (x7)"),
    (0x0e50_22af, 0, "amoswap.w.aqrl x5, x5, (x0)"),
    (0x2063_a2af, 0, "amoxor.w x5, x6, (x7)"),
    (0x4063_a2af, 0, "amoor.w x5, x6, (x7)"),
    (0x6063_a2af, 0, "amoand.w x5, x6, (x7)"),
    (0x8063_a2af, 0, "amomin.w x5, x6, (x7)"),
    (0xa063_a2af, 0, "amomax.w x5, x6, (x7)"),
    (0xc463_a2af, 0, "amominu.w.aq x5, x6, (x7)"),
    (0xe263_a2af, 0, "amomaxu.w.rl x5, x6, (x7)"),
];

fn prints(rt: &impl Abort, word: u32, pc: u32, text: &str) {
    let Some(instr) = decode(word) else {
        panic!(rt; "the word has a row");
    };
    let mut out = ArrayVec::new();
    print_instr(instr, pc, &mut out);
    assert_eq!(rt; out.as_slice(), text.as_bytes());
}

#[test]
fn prints_each_operation(rt: HostRuntime) {
    for (word, pc, text) in &TEXTS {
        prints(&rt, *word, *pc, text);
    }
}

/// Bytes of pieces.
const BYTES: &[u8; 17] = b"\x00\x01\x02\x03\x04\x05\x06\x07\x08\x09\x0a\x0b\xfc\xfd\xfe\xff\xa9";

fn piece(alloc: Global, address: u32, bytes: &[u8]) -> Result<Piece, AllocError>
    ensures { IfOk result (λ piece. piece ≡ record { address = address; bytes = bytes.now }) }
{
    let bytes = Vec::from_slice(alloc, bytes)?;
    Ok(Piece {
        address,
        bytes: Bytes::from_vec(bytes),
    })
}

fn lists(
    rt: &impl Abort,
    alloc: Global,
    words: &[u32],
    pieces: Vec<Piece>,
    text: &str,
) -> Result<(), Fail>
    requires { IsImage (record { text = words.now; pieces = pieces.items }) }
{
    let words = Vec::from_slice(alloc, words)?;
    let image = Image::new(Words::from_vec(words), Pieces::from_vec(pieces));
    let listing = listing_of(alloc, &image).ok().ok_or("there is memory")?;
    assert_eq!(rt; listing.as_slice(), text.as_bytes());
    Ok(())
}

#[test]
fn lists_words(rt: HostRuntime) -> Result<(), Fail> {
    let none = Vec::new(rt.alloc());
    lists(&rt, rt.alloc(), &[], none, ".text\n")?;
    let none = Vec::new(rt.alloc());
    let words = [0x0070_0293, 0x0000_0073];
    lists(
        &rt,
        rt.alloc(),
        &words,
        none,
        ".text\naddi x5, x0, 7\necall\n",
    )?;
    // no row, jal x0, .-252, and fence rw, rw
    let none = Vec::new(rt.alloc());
    let words = [0x0000_0000, 0xf05f_f06f, 0x0330_000f];
    lists(
        &rt,
        rt.alloc(),
        &words,
        none,
        ".text\n.word 0x00000000\njal x0, -248\n.word 0x0330000f\n",
    )
}

#[test]
fn lists_pieces(rt: HostRuntime) -> Result<(), Fail> {
    let mut pieces = Vec::new(rt.alloc());
    pieces.push(piece(rt.alloc(), 4, &BYTES[..1])?)?;
    pieces.push(piece(rt.alloc(), 0x10, &BYTES[..16])?)?;
    pieces.push(piece(rt.alloc(), 0xf_ffef, BYTES)?)?;
    lists(
        &rt,
        rt.alloc(),
        &[0x0010_0073],
        pieces,
        ".text
ebreak
.data
.org 0x00000004
.byte 0x00
.org 0x00000010
.byte 0x00, 0x01, 0x02, 0x03, 0x04, 0x05, 0x06, 0x07, 0x08, 0x09, 0x0a, 0x0b, 0xfc, 0xfd, 0xfe, 0xff
.org 0x000fffef
.byte 0x00, 0x01, 0x02, 0x03, 0x04, 0x05, 0x06, 0x07, 0x08, 0x09, 0x0a, 0x0b, 0xfc, 0xfd, 0xfe, 0xff
.byte 0xa9
",
    )
}
